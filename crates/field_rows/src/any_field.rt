//! Rows over any field.
ghost use Rattle.std.specs.Prelude.{◌≡◌, ℕ, ◌+◌, ◌*◌, ◌<◌, ◌≤◌, length, All, slice_index_or};
ghost use Rattle.pet_poly.specs.Value.{value};
ghost use Rattle.field_rows.specs.Columns.{column};

use field_elements::Field;
use pet_base::Steps;
use pet_poly::add_scaled;
use std::sync::ledger::Ledger;

/// The values at `x` of all columns of `count` rows, each as long as `into`, one after another. It counts one step for each
/// element of the rows.
pub fn each_column<F: Field, L: Ledger>(
    f: &F,
    rows: &[F::Elem],
    count: usize,
    x: F::Elem,
    into: &mut [F::Elem],
    steps: &mut Steps<L>,
)
    requires whole { length rows.now ≡ count * length into.old }
    requires elements { All F.is_element rows.now }
    requires point { F.is_element x }
    ensures values { (c : ℕ) → c < length into.old →
        slice_index_or into.new c F.coding.ops.nought
        ≡ value F.coding.ops (column F.coding.ops.nought (length into.old) count c rows.now) x }
    ensures elements { All F.is_element into.new }
    ensures cost { steps.new ≡ steps.old + length rows.now }
{
    let width = into.len();
    for c in 0..width {
        into[c] = column_value(f, rows, width, count, c, x, steps);
    }
}

/// The value at `x` of column c. It counts one step for each row.
pub(crate) fn column_value<F: Field, L: Ledger>(
    f: &F,
    rows: &[F::Elem],
    width: usize,
    count: usize,
    c: usize,
    x: F::Elem,
    steps: &mut Steps<L>,
) -> F::Elem
    requires whole { length rows.now ≡ count * width }
    requires column { c < width }
    requires elements { All F.is_element rows.now }
    requires point { F.is_element x }
    ensures value { result ≡ value F.coding.ops (column F.coding.ops.nought width count c rows.now) x }
    ensures cost { steps.new ≡ steps.old + count }
{
    let mut value = f.zero();
    let mut at = rows.len();
    for j in (0..count).rev() {
        at -= width;
        value = f.add(f.mul(value, x, steps), rows[at + c]);
    }
    value
}

/// Multiplies each element of a row by `factor`. It counts one step for each.
pub fn multiply_each<F: Field, L: Ledger>(
    f: &F,
    factor: F::Elem,
    row: &mut [F::Elem],
    steps: &mut Steps<L>,
)
    requires factor { F.is_element factor }
    requires elements { All F.is_element row.old }
    ensures products { (c : ℕ) → c < length row.old →
        slice_index_or row.new c F.coding.ops.nought
        ≡ F.coding.ops.times factor (slice_index_or row.old c F.coding.ops.nought) }
    ensures elements { All F.is_element row.new }
    ensures cost { steps.new ≡ steps.old + length row.old }
{
    for c in 0..row.len() {
        row[c] = f.mul(factor, row[c], steps);
    }
}

/// Adds to row j of `rows` the multiple of `row` by element j of `by`, product by product; later rows stay. It counts one step
/// for each.
pub fn add_each<F: Field, L: Ledger>(
    f: &F,
    by: &[F::Elem],
    row: &[F::Elem],
    rows: &mut [F::Elem],
    steps: &mut Steps<L>,
)
    requires room { length by.now * length row.now ≤ length rows.old }
    requires factors { All F.is_element by.now }
    requires row { All F.is_element row.now }
    requires elements { All F.is_element rows.old }
    ensures sums { (j c : ℕ) → j < length by.now → c < length row.now →
        slice_index_or rows.new (j * length row.now + c) F.coding.ops.nought
        ≡ F.coding.ops.plus (slice_index_or rows.old (j * length row.now + c) F.coding.ops.nought)
        (F.coding.ops.times (slice_index_or by.now j F.coding.ops.nought) (slice_index_or row.now c F.coding.ops.nought)) }
    ensures others { (i : ℕ) → length by.now * length row.now ≤ i
        → slice_index_or rows.new i F.coding.ops.nought ≡ slice_index_or rows.old i F.coding.ops.nought }
    ensures elements { All F.is_element rows.new }
    ensures cost { steps.new ≡ steps.old + length by.now * length row.now }
{
    let mut at = 0;
    for j in 0..by.len() {
        add_scaled_at(f, by[j], row, rows, at, steps);
        at += row.len();
    }
}

/// Adds `by` times `row` to the elements of `rows` from `at` on; the others stay. It counts one step
/// for each element of `row`.
pub(crate) fn add_scaled_at<F: Field, L: Ledger>(
    f: &F,
    by: F::Elem,
    row: &[F::Elem],
    rows: &mut [F::Elem],
    at: usize,
    steps: &mut Steps<L>,
)
    requires room { at + length row.now ≤ length rows.old }
    requires factor { F.is_element by }
    requires row { All F.is_element row.now }
    requires elements { All F.is_element rows.old }
    ensures sums { (c : ℕ) → c < length row.now →
        slice_index_or rows.new (at + c) F.coding.ops.nought
        ≡ F.coding.ops.plus (slice_index_or rows.old (at + c) F.coding.ops.nought) (F.coding.ops.times by (slice_index_or row.now c F.coding.ops.nought)) }
    ensures before { (i : ℕ) → i < at → slice_index_or rows.new i F.coding.ops.nought ≡ slice_index_or rows.old i F.coding.ops.nought }
    ensures behind { (i : ℕ) → at + length row.now ≤ i → slice_index_or rows.new i F.coding.ops.nought ≡ slice_index_or rows.old i F.coding.ops.nought }
    ensures elements { All F.is_element rows.new }
    ensures cost { steps.new ≡ steps.old + length row.now }
{
    let end = at + row.len();
    add_scaled(f, &mut rows[at..end], row, by, steps);
}
