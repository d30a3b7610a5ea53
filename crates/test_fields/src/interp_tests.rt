//! The line through two points, over the field of 65,536 elements, at once and point by point.
ghost use Rattle.std.specs.Prelude.{◌≡◌, ◌≢◌, ◌<◌};

use field_elements::Gf16Plain;
use pet_base::{NoMemory, Steps};
use pet_interp::{Progress, interpolate};
use std::alloc::Global;
use std::marker::Brand;
use std::sync::ledger::{Blank, Ledger};

/// The line through two points.
fn line<L: Ledger>(first: (u16, u16), second: (u16, u16), blank: Blank) -> [u16; 2]
    requires name { blank.name ≡ L.name }
    requires parts { blank.parts ≡ L.parts }
    requires some { 0 < blank.parts }
    requires other { first.0 ≢ second.0 }
{
    let mut steps = Steps::<L>::new(blank);
    let mut into = [0, 0];
    interpolate(&Gf16Plain, &[first, second], &mut into, &mut steps);
    into
}

/// The line through two points that are met one after the other, and how many were met.
fn met_line<L: Ledger>(
    alloc: Global,
    first: (u16, u16),
    second: (u16, u16),
    blank: Blank,
) -> Result<([u16; 2], u32), NoMemory>
    requires name { blank.name ≡ L.name }
    requires parts { blank.parts ≡ L.parts }
    requires some { 0 < blank.parts }
    requires other { first.0 ≢ second.0 }
{
    let mut steps = Steps::<L>::new(blank);
    let field = Gf16Plain;
    let mut progress = Progress::new(alloc, &field, &[2])?;
    progress.add(first.0, &first.1.to_be_bytes(), &mut steps);
    progress.add(second.0, &second.1.to_be_bytes(), &mut steps);
    let coefficients = progress.coefficients(0);
    Ok(([coefficients[0], coefficients[1]], progress.met()))
}

#[test]
fn finds_the_line_in_both_orders(rt: HostRuntime) {
    for (first, second) in [((1, 2), (3, 12)), ((3, 12), (1, 2))] {
        let at_once = line::<Brand>(first, second, Blank::new(1));
        let met = met_line::<Brand>(rt.alloc(), first, second, Blank::new(1)).expect(&rt, "memory");
        assert_eq!(rt; at_once, [5, 7]);
        assert_eq!(rt; met, ([5, 7], 2));
    }
}
