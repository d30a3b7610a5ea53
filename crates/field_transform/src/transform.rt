//! The calls on rows of any width.
ghost use Rattle.std.specs.Prelude.{◌≡◌, ◌<◌, ◌≤◌, ◌+◌, ◌*◌, ◌^◌, ℕ, length, slice_index_or, All};
ghost use Rattle.pet_poly.specs.Value.{value};
ghost use Rattle.field_rows.specs.Columns.{column};
ghost use Rattle.field_transform.specs.Basis.{value_in_basis};
ghost use Rattle.field_transform.specs.Steps.{butterflies, products_of_conversion, products_of_values};

use crate::butterflies::fly;
use crate::conversion::convert_from;
use crate::subspaces::Subspaces;
use pet_base::Steps;
use std::sync::ledger::Ledger;

/// Takes each column of 2^level rows of `width` words, as the coefficients of a polynomial, to the coefficients of the same
/// polynomial in the basis of the products of the polynomials of the subspaces. The rows from `known` on are zero, and stay so. It
/// counts one step for each product that is made: at most one for each word before them and each level, and two for each row.
pub fn convert<F: Subspaces, L: Ledger>(
    f: &F,
    rows: &mut [F::Elem],
    width: usize,
    level: u32,
    known: usize,
    steps: &mut Steps<L>,
)
    requires few { level < F.LEVELS }
    requires elements { All F.is_element rows.old }
    requires size { length rows.old ≡ 2 ^ level * width }
    requires known { known ≤ 2 ^ level }
    requires zeros { (i : ℕ) → known * width ≤ i → slice_index_or rows.old i F.coding.ops.nought ≡ F.coding.ops.nought }
    ensures coefficients { (c : ℕ) (x : F.Elem) → c < width → F.is_element x →
        value_in_basis F.coding.ops F.inverse level (column F.coding.ops.nought width (2 ^ level) c rows.new) x
        ≡ value F.coding.ops (column F.coding.ops.nought width (2 ^ level) c rows.old) x }
    ensures zeros { (i : ℕ) → known * width ≤ i → slice_index_or rows.new i F.coding.ops.nought ≡ F.coding.ops.nought }
    ensures elements { All F.is_element rows.new }
    ensures cost { steps.new ≡ steps.old + products_of_conversion width level (known * width) }
    ensures bounded { steps.new ≤ steps.old + level * (known * width) + 2 ^ (level + 1) }
{
    convert_from(f, rows, width, 0, level, known * width, steps);
}

/// Takes each column of 2^level rows of `width` words, as the coefficients of a polynomial in the basis of the products of
/// the polynomials of the subspaces, to its values: each of the first `count` rows, row p, gets those at the point of the number
/// block * 2^level + p. What stands in the other rows is not said. It counts one step for each product that is made: at most one
/// for each word of a butterfly and two for each row.
pub fn values_at_coset<F: Subspaces, L: Ledger>(
    f: &F,
    rows: &mut [F::Elem],
    width: usize,
    level: u32,
    block: u32,
    count: usize,
    steps: &mut Steps<L>,
)
    requires few { level < F.LEVELS }
    requires elements { All F.is_element rows.old }
    requires size { length rows.old ≡ 2 ^ level * width }
    requires block { block * 2 ^ level < F.COUNT }
    requires count { count ≤ 2 ^ level }
    ensures values { (p c : ℕ) → p < count → c < width → slice_index_or rows.new (p * width + c) F.coding.ops.nought
        ≡ value_in_basis F.coding.ops F.inverse level (column F.coding.ops.nought width (2 ^ level) c rows.old) (F.coding.point_of (block * 2 ^ level + p)) }
    ensures elements { All F.is_element rows.new }
    ensures cost { steps.new ≡ steps.old + products_of_values width level (block * 2 ^ level) count }
    ensures bounded { steps.new ≤ steps.old + butterflies level * width + 2 ^ (level + 1) }
{
    fly(f, rows, width, level, block << level, count, steps);
}

/// Takes each column of 2^level rows of `width` words, as the coefficients of a polynomial, to its values: each of the
/// first `count` rows, row p, gets those at the point of the number block * 2^level + p. The rows from `known` on are zero. It
/// counts as many steps as the two calls that it is.
pub fn values<F: Subspaces, L: Ledger>(
    f: &F,
    rows: &mut [F::Elem],
    width: usize,
    level: u32,
    known: usize,
    block: u32,
    count: usize,
    steps: &mut Steps<L>,
)
    requires few { level < F.LEVELS }
    requires elements { All F.is_element rows.old }
    requires size { length rows.old ≡ 2 ^ level * width }
    requires known { known ≤ 2 ^ level }
    requires zeros { (i : ℕ) → known * width ≤ i → slice_index_or rows.old i F.coding.ops.nought ≡ F.coding.ops.nought }
    requires block { block * 2 ^ level < F.COUNT }
    requires count { count ≤ 2 ^ level }
    ensures values { (p c : ℕ) → p < count → c < width → slice_index_or rows.new (p * width + c) F.coding.ops.nought
        ≡ value F.coding.ops (column F.coding.ops.nought width (2 ^ level) c rows.old) (F.coding.point_of (block * 2 ^ level + p)) }
    ensures padded { (k p c : ℕ) → k ≤ 2 ^ level → p < count → c < width →
        ((i : ℕ) → k ≤ i → i < 2 ^ level → slice_index_or rows.old (i * width + c) F.coding.ops.nought ≡ F.coding.ops.nought)
        → slice_index_or rows.new (p * width + c) F.coding.ops.nought
        ≡ value F.coding.ops (column F.coding.ops.nought width k c rows.old) (F.coding.point_of (block * 2 ^ level + p)) }
    ensures elements { All F.is_element rows.new }
    ensures cost { steps.new ≡ steps.old + products_of_conversion width level (known * width)
        + products_of_values width level (block * 2 ^ level) count }
    ensures bounded { steps.new ≤ steps.old + (level * known + butterflies level) * width + 2 ^ (level + 2) }
    ensures fewer { 4 ≤ level → 0 < width → steps.new ≤ steps.old + 2 ^ level * length rows.old }
{
    convert(f, rows, width, level, known, steps);
    values_at_coset(f, rows, width, level, block, count, steps);
}
