//! What a finite field offers to the code above it.
ghost use Rattle.std.specs.Prelude.{◌≡◌, ◌≢◌, ℕ, ◌+◌, ◌<◌, length};
ghost use Rattle.field_elements.specs.Field.{Coding, IsCoding, TellsApart};

use pet_base::Steps;
use std::sync::ledger::Ledger;

/// A commutative field. What its calls compute belongs to the type, so every value of the type
/// computes the same. `mul` and `inv` count one step each, and no other call counts any.
pub trait Field {
    /// What holds an element.
    type Elem: Copy + Eq;

    /// How many bytes an element is written in.
    const WIDTH: usize;

    /// How many numbers have a point.
    const COUNT: u32;

    /// `WIDTH`, in contracts.
    ghost WIDTH: { ℕ };

    /// `COUNT`, in contracts.
    ghost COUNT: { ℕ };

    /// Holds of the values that are elements.
    ghost is_element: { Self.Elem → Type 0 };

    /// What the field computes, the point of each number, and each element as `WIDTH` bytes.
    ghost coding: { Coding Self.Elem };

    /// The neutral element of addition.
    fn zero(&self) -> Self::Elem
        ensures { result ≡ coding.ops.nought };

    /// The neutral element of multiplication.
    fn one(&self) -> Self::Elem
        ensures { result ≡ coding.ops.unit };

    /// The sum of two elements.
    fn add(&self, a: Self::Elem, b: Self::Elem) -> Self::Elem
        requires first { is_element a }
        requires second { is_element b }
        ensures { result ≡ coding.ops.plus a b };

    /// The difference: what gives `a` when `b` is added.
    fn sub(&self, a: Self::Elem, b: Self::Elem) -> Self::Elem
        requires first { is_element a }
        requires second { is_element b }
        ensures { result ≡ coding.ops.minus a b };

    /// The product of two elements. It counts one step.
    fn mul<L: Ledger>(&self, a: Self::Elem, b: Self::Elem, steps: &mut Steps<L>) -> Self::Elem
        requires first { is_element a }
        requires second { is_element b }
        ensures product { result ≡ coding.ops.times a b }
        ensures cost { steps.new ≡ steps.old + 1 };

    /// The inverse of an element that is not zero. It counts one step.
    fn inv<L: Ledger>(&self, a: Self::Elem, steps: &mut Steps<L>) -> Self::Elem
        requires element { is_element a }
        requires nonzero { a ≢ coding.ops.nought }
        ensures element { is_element result }
        ensures inverse { coding.ops.times a result ≡ coding.ops.unit }
        ensures cost { steps.new ≡ steps.old + 1 };

    /// The point of a number below `COUNT`.
    fn point(&self, number: u32) -> Self::Elem
        requires { number < COUNT }
        ensures { result ≡ coding.point_of number };

    /// The element that exactly `WIDTH` bytes spell.
    fn read(&self, bytes: &[u8]) -> Self::Elem
        requires { length bytes.now ≡ coding.width }
        ensures element { is_element result }
        ensures value { result ≡ coding.spelt bytes.now };

    /// Writes an element to exactly `WIDTH` bytes.
    fn write(&self, a: Self::Elem, into: &mut [u8])
        requires element { is_element a }
        requires room { length into.old ≡ coding.width }
        ensures { into.new ≡ coding.spelling a };

    /// The laws of a commutative field, of its points and of its spellings.
    ghost lawful: { IsCoding is_element COUNT coding };

    /// `==` is true exactly of one and the same element.
    ghost equal: { TellsApart is_element Self.Elem.eq };

    /// An element is written in `WIDTH` bytes.
    ghost wide: { coding.width ≡ WIDTH };
}
