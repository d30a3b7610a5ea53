//! The writers that may stand for standard output.
ghost use Rattle.pet_ends.specs.Steady.{IsSteady};
ghost use Rattle.pet_ends.specs.laws.SteadyLaws.{never_told, always_told};

use std::alloc::Allocator;
use std::io::Write;
use std::rt::Stdout;

/// A writer that tells what it holds as long as it is there, or never.
pub trait Printer: Write {
    /// Where it tells what it holds, it tells so behind every write, and where not, then behind none.
    ghost steady: { IsSteady Self.contents };
}

impl Printer for Stdout {
    ghost steady = { never_told };
}

impl<A: Allocator> Printer for Vec<u8, A> {
    ghost steady = { always_told (λ v. v.items) };
}
