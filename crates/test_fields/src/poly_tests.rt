//! Values, products and sums of polynomials, over the field of 65,536 elements.
ghost use Rattle.std.specs.Prelude.{◌≡◌, ◌<◌};

use field_elements::Gf16Plain;
use pet_base::Steps;
use pet_poly::{add_scaled, eval, eval_monic, times_linear};
use std::marker::Brand;
use std::sync::ledger::{Blank, Ledger};

/// The values of 5 + 7 X and of 5 + 7 X + X X.
fn values<L: Ledger>(x: u16, blank: Blank) -> [u16; 2]
    requires name { blank.name ≡ L.name }
    requires parts { blank.parts ≡ L.parts }
    requires some { 0 < blank.parts }
{
    let mut steps = Steps::<L>::new(blank);
    let line = eval(&Gf16Plain, &[5, 7], x, &mut steps);
    [line, eval_monic(&Gf16Plain, &[5, 7], x, &mut steps)]
}

/// The product of X - 1 and X - 2, and to it twice 3 added at its front.
fn products<L: Ledger>(blank: Blank) -> [[u16; 2]; 2]
    requires name { blank.name ≡ L.name }
    requires parts { blank.parts ≡ L.parts }
    requires some { 0 < blank.parts }
{
    let mut steps = Steps::<L>::new(blank);
    let mut low = [1, 0];
    times_linear(&Gf16Plain, &mut low, 1, 2, &mut steps);
    let mut sum = low;
    add_scaled(&Gf16Plain, &mut sum, &[3], 2, &mut steps);
    [low, sum]
}

#[test]
fn gives_values_of_two_polynomials(rt: HostRuntime) {
    for (x, want) in [(0, [5, 5]), (1, [2, 3]), (2, [11, 15]), (3, [12, 9])] {
        assert_eq!(rt; values::<Brand>(x, Blank::new(1)), want);
    }
}

#[test]
fn multiplies_by_a_linear_factor_and_adds_a_multiple(rt: HostRuntime) {
    assert_eq!(rt; products::<Brand>(Blank::new(1)), [[2, 3], [4, 3]]);
}
