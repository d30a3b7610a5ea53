//! The loops over the rows of a block, all columns at once, by prepared factors.
ghost use Rattle.std.specs.Prelude.{◌≡◌, ℕ, ◌+◌, ◌*◌, ◌<◌, ◌≤◌, length, map, All, slice_index_or};
ghost use Rattle.pet_poly.specs.Value.{value};
ghost use Rattle.field_rows.specs.Columns.{column};

use crate::prepared::{Prepared, products};

/// The value at the factor of each column of `count` rows, each as long as `into`.
#[inline(never)]
pub fn column_values<P: Prepared>(rows: &[P::Elem], count: usize, by: &P, into: &mut [P::Elem])
    requires whole { length rows.now ≡ count * length into.old }
    requires narrow { length into.old ≤ 32 }
    ensures { (c : ℕ) → c < length into.old → slice_index_or into.new c P.ops.nought
        ≡ value P.ops (column P.ops.nought (length into.old) count c rows.now) (P.factor by.now) }
{
    by.elements(rows);
    let width = into.len();
    let mut sums = P::zeros();
    let mut at = rows.len();
    for j in (0..count).rev() {
        at -= width;
        sums = by.step(sums, P::load(rows, at));
    }
    P::unload(P::join(sums), into);
}

/// Multiplies each element of a row by the factor.
#[inline(never)]
pub fn scale_row<P: Prepared>(by: &P, row: &mut [P::Elem])
    requires { length row.old ≤ 32 }
    ensures { (c : ℕ) → c < length row.old → slice_index_or row.new c P.ops.nought
        ≡ P.ops.times (P.factor by.now) (slice_index_or row.old c P.ops.nought) }
{
    let v = P::load(row, 0);
    P::unload(products(by, v), row);
}

/// Adds to row j of a block the multiple of `row` by `factors[j]`.
#[inline(never)]
pub fn add_multiples<P: Prepared>(factors: &[P], row: &[P::Elem], rows: &mut [P::Elem])
    requires narrow { length row.now ≤ 32 }
    requires room { length factors.now * length row.now ≤ length rows.old }
    ensures sums { (j c : ℕ) → j < length factors.now → c < length row.now →
        slice_index_or rows.new (j * length row.now + c) P.ops.nought
        ≡ P.ops.plus (slice_index_or rows.old (j * length row.now + c) P.ops.nought)
        (P.ops.times (slice_index_or (map P.factor factors.now) j P.ops.nought)
        (slice_index_or row.now c P.ops.nought)) }
    ensures others { (i : ℕ) → length factors.now * length row.now ≤ i
        → slice_index_or rows.new i P.ops.nought ≡ slice_index_or rows.old i P.ops.nought }
{
    let from = P::split(P::load(row, 0));
    let mut at = 0;
    for j in 0..factors.len() {
        add_times(&factors[j], from, rows, at);
        at += row.len();
    }
}

/// Adds the products to the elements from `at` on.
#[inline(always)]
fn add_times<P: Prepared>(by: &P, from: P::Parts, rows: &mut [P::Elem], at: usize)
    requires long { length (P.joined from) ≡ 32 }
    requires place { at ≤ length rows.old }
    ensures factor { P.is_element (P.factor by.now) }
    ensures elements { All P.is_element rows.old }
    ensures inside { (c : ℕ) → c < 32 → at + c < length rows.old →
        slice_index_or rows.new (at + c) P.ops.nought ≡ P.ops.plus (slice_index_or rows.old (at + c) P.ops.nought)
        (P.ops.times (P.factor by.now) (slice_index_or (P.joined from) c P.ops.nought)) }
    ensures before { (i : ℕ) → i < at
        → slice_index_or rows.new i P.ops.nought ≡ slice_index_or rows.old i P.ops.nought }
    ensures behind { (i : ℕ) → at + 32 ≤ i
        → slice_index_or rows.new i P.ops.nought ≡ slice_index_or rows.old i P.ops.nought }
{
    by.elements(rows);
    let multiples = P::join(by.times(from));
    P::store(P::add(P::load(rows, at), multiples), rows, at);
}
