//! What a field does with whole rows of elements.
ghost use Rattle.std.specs.Prelude.{◌≡◌, ℕ, ◌+◌, ◌*◌, ◌<◌, ◌≤◌, length, map, All, slice_index_or};
ghost use Rattle.pet_poly.specs.Value.{value};
ghost use Rattle.field_rows.specs.Columns.{column};

use crate::any_field::{add_scaled_at, each_column, multiply_each};
use crate::blocks::MAX_WIDTH;
use field_elements::Field;
use pet_base::Steps;
use std::sync::ledger::Ledger;

/// A field that works on blocks: rows of elements, one after another, each as long, and at most 32 elements long. A
/// field has these calls by `factor` and `element` alone; a faster body of the others has the same contract.
pub trait Rows: Field {
    /// A factor, prepared for many products.
    type Factor: Drop;

    /// The factor itself.
    ghost element_of: { Self.Factor → Self.Elem };

    /// Prepares a factor. It counts no step.
    fn prepare(&self, x: Self::Elem) -> Self::Factor
        requires { Self.is_element x }
        ensures { element_of result ≡ x };

    /// What was prepared.
    fn element(&self, factor: &Self::Factor) -> Self::Elem
        ensures { result ≡ element_of factor.now };

    /// Whether rows of so many columns are better taken product by product, so that no factor is prepared for them. It is asked
    /// for speed alone: whatever it answers, the sums are the same.
    fn is_narrow(&self, _width: usize) -> bool {
        false
    }

    /// The value at the factor of each column of `count` rows, each as long as `into`. It counts one step for
    /// each element of the rows.
    fn values<L: Ledger>(
        &self,
        rows: &[Self::Elem],
        count: usize,
        x: &Self::Factor,
        into: &mut [Self::Elem],
        steps: &mut Steps<L>,
    )
        requires whole { length rows.now ≡ count * length into.old }
        requires narrow { length into.old ≤ MAX_WIDTH }
        requires elements { All Self.is_element rows.now }
        requires point { Self.is_element (element_of x.now) }
        ensures values { (c : ℕ) → c < length into.old →
            slice_index_or into.new c Self.coding.ops.nought ≡ value Self.coding.ops (column Self.coding.ops.nought (length into.old) count c rows.now) (element_of x.now) }
        ensures elements { All Self.is_element into.new }
        ensures cost { steps.new ≡ steps.old + length rows.now }
    {
        let point = self.element(x);
        each_column(self, rows, count, point, into, steps);
    }

    /// Multiplies each element of a row by the factor. It counts one step for each.
    fn scale<L: Ledger>(&self, by: &Self::Factor, row: &mut [Self::Elem], steps: &mut Steps<L>)
        requires narrow { length row.old ≤ MAX_WIDTH }
        requires factor { Self.is_element (element_of by.now) }
        requires elements { All Self.is_element row.old }
        ensures products { (c : ℕ) → c < length row.old →
            slice_index_or row.new c Self.coding.ops.nought ≡ Self.coding.ops.times (element_of by.now) (slice_index_or row.old c Self.coding.ops.nought) }
        ensures elements { All Self.is_element row.new }
        ensures cost { steps.new ≡ steps.old + length row.old }
    {
        let factor = self.element(by);
        multiply_each(self, factor, row, steps);
    }

    /// Adds to row j of `rows` the multiple of `row` by factor j, for each factor; later rows stay. It counts one
    /// step for each element of the rows that change.
    fn add_products<L: Ledger>(
        &self,
        factors: &[Self::Factor],
        row: &[Self::Elem],
        rows: &mut [Self::Elem],
        steps: &mut Steps<L>,
    )
        requires narrow { length row.now ≤ MAX_WIDTH }
        requires room { length factors.now * length row.now ≤ length rows.old }
        requires factors { All Self.is_element (map element_of factors.now) }
        requires row { All Self.is_element row.now }
        requires elements { All Self.is_element rows.old }
        ensures sums { (j c : ℕ) → j < length factors.now → c < length row.now →
            slice_index_or rows.new (j * length row.now + c) Self.coding.ops.nought
            ≡ Self.coding.ops.plus (slice_index_or rows.old (j * length row.now + c) Self.coding.ops.nought) (Self.coding.ops.times (slice_index_or (map element_of factors.now) j Self.coding.ops.nought) (slice_index_or row.now c Self.coding.ops.nought)) }
        ensures others { (i : ℕ) → length factors.now * length row.now ≤ i → slice_index_or rows.new i Self.coding.ops.nought ≡ slice_index_or rows.old i Self.coding.ops.nought }
        ensures elements { All Self.is_element rows.new }
        ensures cost { steps.new ≡ steps.old + length factors.now * length row.now }
    {
        let mut at = 0;
        for j in 0..factors.len() {
            let by = self.element(&factors[j]);
            add_scaled_at(self, by, row, rows, at, steps);
            at += row.len();
        }
    }
}
