//! A field in which the transform works: the constants of the subspaces of the points of small numbers, and the calls on rows.
ghost use Rattle.std.specs.Prelude.{◌≡◌, ℕ, ◌+◌, ◌<◌, length, All, slice_index_or};
ghost use Rattle.field_transform.specs.Constants;
ghost use Rattle.field_transform.specs.Subspaces.{HasSubspaces};
ghost use Rattle.field_transform.specs.laws.Gf16Subspaces.{gf16_subspaces};

use crate::words::add_words;
use field_elements::{Field, Gf16Plain};
use field_rows::multiply_each;
use field_vectors::{Products, add_multiple_row, butterfly_row, multiply_row};
use pet_base::Steps;
use pet_field::Gf16Tables;
use pet_poly::add_scaled;
use std::sync::ledger::Ledger;

/// A field of characteristic two, in which the point of a sum of numbers, bit by bit, is the sum of their points, and which has
/// the constants of the subspaces of the points of the numbers below 2^j, for each j below `LEVELS` (Cantor 1989; von zur Gathen
/// and Gerhard 1996). The polynomials of the subspaces are each 1 at the point of 2^j (Lin, Chung and Han 2014). A field has the
/// calls on rows by single products; a faster body has the same contract.
pub trait Subspaces: Field {
    /// How many levels there are: the transform takes 2^level rows, for a level below this. Each level but the last has a factor.
    const LEVELS: u32;

    /// `LEVELS`, in contracts.
    ghost LEVELS: { ℕ };

    /// Of each level, what the square of the polynomial of its subspace plus the polynomial is, as a multiple of the next.
    ghost factor: { ℕ → Self.Elem };

    /// The inverses of these factors.
    ghost inverse: { ℕ → Self.Elem };

    /// The factor of a level.
    fn factor_of(&self, level: u32) -> Self::Elem
        requires { level + 1 < LEVELS }
        ensures { result ≡ factor level };

    /// The inverse of that factor.
    fn inverse_of(&self, level: u32) -> Self::Elem
        requires { level + 1 < LEVELS }
        ensures { result ≡ inverse level };

    /// The product of two elements, of which the transform makes a few for each row. It counts one step.
    fn single_product<L: Ledger>(
        &self,
        a: Self::Elem,
        b: Self::Elem,
        steps: &mut Steps<L>,
    ) -> Self::Elem
        requires first { Self.is_element a }
        requires second { Self.is_element b }
        ensures product { result ≡ Self.coding.ops.times a b }
        ensures cost { steps.new ≡ steps.old + 1 }
    {
        self.mul(a, b, steps)
    }

    /// Multiplies each element of a row by the factor. It counts one step for each.
    fn multiply_row<L: Ledger>(&self, by: Self::Elem, row: &mut [Self::Elem], steps: &mut Steps<L>)
        requires factor { Self.is_element by }
        requires elements { All Self.is_element row.old }
        ensures products { (i : ℕ) → i < length row.old →
            slice_index_or row.new i Self.coding.ops.nought ≡ Self.coding.ops.times by (slice_index_or row.old i Self.coding.ops.nought) }
        ensures cost { steps.new ≡ steps.old + length row.old }
    {
        multiply_each(self, by, row, steps);
    }

    /// Adds to a row the multiple of another of its length by the factor. It counts one step for each element.
    fn add_multiple_row<L: Ledger>(
        &self,
        by: Self::Elem,
        other: &[Self::Elem],
        into: &mut [Self::Elem],
        steps: &mut Steps<L>,
    )
        requires same { length into.old ≡ length other.now }
        requires factor { Self.is_element by }
        requires others { All Self.is_element other.now }
        requires elements { All Self.is_element into.old }
        ensures sums { (i : ℕ) → i < length other.now →
            slice_index_or into.new i Self.coding.ops.nought
            ≡ Self.coding.ops.plus (slice_index_or into.old i Self.coding.ops.nought) (Self.coding.ops.times by (slice_index_or other.now i Self.coding.ops.nought)) }
        ensures cost { steps.new ≡ steps.old + length other.now }
    {
        add_scaled(self, into, other, by, steps);
    }

    /// Adds to a row the multiple of another of its length by the factor, and what the first has become to that. It counts one
    /// step for each element of a row.
    fn butterfly_row<L: Ledger>(
        &self,
        by: Self::Elem,
        low: &mut [Self::Elem],
        high: &mut [Self::Elem],
        steps: &mut Steps<L>,
    )
        requires same { length low.old ≡ length high.old }
        requires factor { Self.is_element by }
        requires first { All Self.is_element low.old }
        requires second { All Self.is_element high.old }
        ensures low { (i : ℕ) → i < length high.old →
            slice_index_or low.new i Self.coding.ops.nought
            ≡ Self.coding.ops.plus (slice_index_or low.old i Self.coding.ops.nought) (Self.coding.ops.times by (slice_index_or high.old i Self.coding.ops.nought)) }
        ensures high { (i : ℕ) → i < length high.old →
            slice_index_or high.new i Self.coding.ops.nought
            ≡ Self.coding.ops.plus (slice_index_or low.new i Self.coding.ops.nought) (slice_index_or high.old i Self.coding.ops.nought) }
        ensures cost { steps.new ≡ steps.old + length high.old }
    {
        add_scaled(self, low, high, by, steps);
        add_words(self, high, low, low.len());
    }

    /// The laws of the points and of the constants.
    ghost subspaces: { HasSubspaces Self.is_element Self.coding.ops Self.COUNT Self.coding.point_of LEVELS factor inverse };
}

/// The factors of the field of 65,536 elements, by level, as `specs/Constants.antt` has them.
const FACTORS: [u16; 15] = [
    6, 18, 258, 4105, 7164, 23590, 58949, 2861, 5788, 2682, 6018, 6949, 3431, 22095, 61636,
];

/// The inverses of these factors.
const INVERSES: [u16; 15] = [
    30723, 4973, 60035, 613, 21230, 46348, 37670, 42719, 14201, 5337, 42404, 1214, 6583, 45757,
    55335,
];

/// The factor of a level, over the field of 65,536 elements.
#[tactic(auto, unfolding(crate::specs::Constants::factor))]
fn gf16_factor(level: u32) -> u16
    requires { level < 15 }
    ensures { result ≡ Constants.factor level }
{
    FACTORS[level as usize]
}

/// The inverse of that factor.
#[tactic(auto, unfolding(crate::specs::Constants::inverse))]
fn gf16_inverse(level: u32) -> u16
    requires { level < 15 }
    ensures { result ≡ Constants.inverse level }
{
    INVERSES[level as usize]
}

/// The field of 65,536 elements, with the calls on rows by single products.
impl Subspaces for Gf16Plain {
    const LEVELS: u32 = 16;

    ghost LEVELS = { 16 };

    ghost factor = { Constants.factor };

    ghost inverse = { Constants.inverse };

    fn factor_of(&self, level: u32) -> u16 {
        gf16_factor(level)
    }

    fn inverse_of(&self, level: u32) -> u16 {
        gf16_inverse(level)
    }

    ghost subspaces = { gf16_subspaces };
}

/// The same field, with the calls on rows by vectors.
impl Subspaces for Gf16Tables {
    const LEVELS: u32 = 16;

    ghost LEVELS = { 16 };

    ghost factor = { Constants.factor };

    ghost inverse = { Constants.inverse };

    fn factor_of(&self, level: u32) -> u16 {
        gf16_factor(level)
    }

    fn inverse_of(&self, level: u32) -> u16 {
        gf16_inverse(level)
    }

    // by shifts: measured, a word took 43 to 44 ps so, and 47 to 53 by tables
    fn single_product<L: Ledger>(&self, a: u16, b: u16, steps: &mut Steps<L>) -> u16 {
        Gf16Plain.mul(a, b, steps)
    }

    fn multiply_row<L: Ledger>(&self, by: u16, row: &mut [u16], steps: &mut Steps<L>) {
        multiply_row(&Products::new(by), row, steps);
    }

    fn add_multiple_row<L: Ledger>(
        &self,
        by: u16,
        other: &[u16],
        into: &mut [u16],
        steps: &mut Steps<L>,
    ) {
        add_multiple_row(&Products::new(by), other, into, steps);
    }

    fn butterfly_row<L: Ledger>(
        &self,
        by: u16,
        low: &mut [u16],
        high: &mut [u16],
        steps: &mut Steps<L>,
    ) {
        butterfly_row(&Products::new(by), low, high, steps);
    }

    ghost subspaces = { gf16_subspaces };
}
