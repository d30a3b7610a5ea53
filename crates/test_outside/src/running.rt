//! Runs on objects of the outside, each with a counter of its own.
ghost use Rattle.std.specs.Prelude.{◌≡◌, ◌<◌};

use pet_base::{Link, Outside, Place, Sink, Steps};
use std::alloc::Global;
use std::marker::Brand;
use std::sync::ledger::{Blank, Ledger};

/// What is run on the outside, and answers so.
pub trait Runs<T> {
    /// The answer of a run.
    fn run<P: Place, K: Link, S: Sink, L: Ledger>(
        &self,
        alloc: Global,
        outside: &mut Outside<P, K, S, L>,
    ) -> T;
}

/// The answer of a run on these objects.
pub fn run_on<T>(
    alloc: Global,
    run: &impl Runs<T>,
    place: &mut impl Place,
    link: &mut impl Link,
    out: &mut impl Sink,
) -> T {
    run_counted::<T, Brand>(alloc, run, place, link, out, Blank::new(1))
}

/// The same on this counter.
fn run_counted<T, L: Ledger>(
    alloc: Global,
    run: &impl Runs<T>,
    place: &mut impl Place,
    link: &mut impl Link,
    out: &mut impl Sink,
    blank: Blank,
) -> T
    requires name { blank.name ≡ L.name }
    requires parts { blank.parts ≡ L.parts }
    requires some { 0 < blank.parts }
{
    let mut steps = Steps::<L>::new(blank);
    let mut outside = Outside {
        place,
        link,
        out,
        steps: &mut steps,
    };
    run.run(alloc, &mut outside)
}
