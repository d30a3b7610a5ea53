//! The values of the columns of rows at the points of a range of numbers: one conversion, and then coset after coset.
ghost use Rattle.std.specs.Prelude.{◌≡◌, ℕ, ◌+◌, ◌-◌, ◌*◌, ◌<◌, ◌≤◌, ◌^◌, length, slice_index_or, All};
ghost use Rattle.field_transform.specs.Basis.{value_in_basis};
ghost use Rattle.field_transform.specs.Steps.{butterflies};
ghost use Rattle.pet_poly.specs.Value.{value};
ghost use Rattle.field_rows.specs.Columns.{column};

use field_transform::{Subspaces, convert, values_at_coset};
use pet_base::{MAX_PACKETS, Steps};
use std::sync::ledger::Ledger;

/// The highest level of a transform: it has 4,096 points, as many as a group has packets at most.
pub(crate) const MAX_LEVEL: u32 = 12;

/// The number of points of a coset.
pub(crate) fn size_at(level: u32) -> usize
    requires { level ≤ MAX_LEVEL }
    ensures power { result ≡ 2 ^ level }
    ensures bounds { result ≤ MAX_PACKETS }
    ensures some { 0 < result }
{
    1usize << level
}

/// The number of the coset of 2^level numbers that a number lies in.
pub(crate) fn coset_of(number: usize, level: u32) -> u16
    requires level { level ≤ MAX_LEVEL }
    requires few { number < MAX_PACKETS }
    ensures begins { result * 2 ^ level ≤ number }
    ensures ends { number < result * 2 ^ level + 2 ^ level }
{
    (number >> level) as u16
}

/// Takes each column of 2^level rows, as the coefficients of a polynomial, to its values at the points of the numbers `first`
/// to `first + count - 1`, which lie in the cosets `from` to `last`: these go into `into`, a row for each number. The rows from
/// `known` on are zero. Where there are several cosets, `spare` is as long as the rows.
pub(crate) fn transform<F: Subspaces, L: Ledger>(
    f: &F,
    rows: &mut [F::Elem],
    spare: &mut [F::Elem],
    stripes: usize,
    level: u32,
    known: usize,
    from: u16,
    last: u16,
    first: usize,
    count: usize,
    into: &mut [F::Elem],
    steps: &mut Steps<L>,
)
    requires level { level ≤ MAX_LEVEL }
    requires below { level < F.LEVELS }
    requires elements { All F.is_element rows.old }
    requires size { length rows.old ≡ 2 ^ level * stripes }
    requires known { known ≤ 2 ^ level }
    requires zeros { (i : ℕ) → known * stripes ≤ i → slice_index_or rows.old i F.coding.ops.nought
        ≡ F.coding.ops.nought }
    requires spare { from < last → length spare.old ≡ 2 ^ level * stripes }
    requires order { from ≤ last }
    requires begins { from * 2 ^ level ≤ first }
    requires near { first < from * 2 ^ level + 2 ^ level }
    requires some { last * 2 ^ level < first + count }
    requires ends { first + count ≤ last * 2 ^ level + 2 ^ level }
    requires few { first + count ≤ MAX_PACKETS }
    requires points { first + count ≤ F.COUNT }
    requires room { length into.old ≡ count * stripes }
    ensures values { (p c : ℕ) → p < count → c < stripes
        → slice_index_or into.new (p * stripes + c) F.coding.ops.nought
        ≡ value F.coding.ops (column F.coding.ops.nought stripes (2 ^ level) c rows.old)
        (F.coding.point_of (first + p)) }
    ensures cost { steps.new ≤ steps.old + level * (known * stripes) + 2 ^ (level + 1)
        + (last - from + 1) * (butterflies level * stripes + 2 ^ (level + 1)) }
{
    convert(f, rows, stripes, level, known, steps);
    fill_cosets(
        f, rows, spare, stripes, level, from, last, first, count, into, steps,
    );
}

/// Takes each column of 2^level rows, as the coefficients of a polynomial, to its values at the points of the first `count`
/// numbers of a coset: row p gets those of the number p of it. The rows from `known` on are zero.
pub(crate) fn transform_in_place<F: Subspaces, L: Ledger>(
    f: &F,
    rows: &mut [F::Elem],
    stripes: usize,
    level: u32,
    known: usize,
    coset: u16,
    count: usize,
    steps: &mut Steps<L>,
)
    requires level { level ≤ MAX_LEVEL }
    requires below { level < F.LEVELS }
    requires elements { All F.is_element rows.old }
    requires size { length rows.old ≡ 2 ^ level * stripes }
    requires known { known ≤ 2 ^ level }
    requires zeros { (i : ℕ) → known * stripes ≤ i → slice_index_or rows.old i F.coding.ops.nought
        ≡ F.coding.ops.nought }
    requires some { 0 < count }
    requires few { count ≤ 2 ^ level }
    requires points { coset * 2 ^ level + count ≤ F.COUNT }
    ensures values { (p c : ℕ) → p < count → c < stripes
        → slice_index_or rows.new (p * stripes + c) F.coding.ops.nought
        ≡ value F.coding.ops (column F.coding.ops.nought stripes (2 ^ level) c rows.old)
        (F.coding.point_of (coset * 2 ^ level + p)) }
    ensures cost { steps.new ≤ steps.old + level * (known * stripes) + 2 ^ (level + 1)
        + (butterflies level * stripes + 2 ^ (level + 1)) }
{
    convert(f, rows, stripes, level, known, steps);
    let block = u32::from(coset);
    values_at_coset(f, rows, stripes, level, block, count, steps);
}

/// Writes the values of each column, as coefficients in the basis of the subspaces, coset after coset. The last coset is made
/// of the rows themselves, each before it of a copy.
fn fill_cosets<F: Subspaces, L: Ledger>(
    f: &F,
    rows: &mut [F::Elem],
    spare: &mut [F::Elem],
    stripes: usize,
    level: u32,
    from: u16,
    last: u16,
    first: usize,
    count: usize,
    into: &mut [F::Elem],
    steps: &mut Steps<L>,
)
    requires level { level ≤ MAX_LEVEL }
    requires below { level < F.LEVELS }
    requires elements { All F.is_element rows.old }
    requires size { length rows.old ≡ 2 ^ level * stripes }
    requires spare { from < last → length spare.old ≡ 2 ^ level * stripes }
    requires order { from ≤ last }
    requires begins { from * 2 ^ level ≤ first }
    requires near { first < from * 2 ^ level + 2 ^ level }
    requires some { last * 2 ^ level < first + count }
    requires ends { first + count ≤ last * 2 ^ level + 2 ^ level }
    requires few { first + count ≤ MAX_PACKETS }
    requires points { first + count ≤ F.COUNT }
    requires room { length into.old ≡ count * stripes }
    ensures values { (p c : ℕ) → p < count → c < stripes
        → slice_index_or into.new (p * stripes + c) F.coding.ops.nought
        ≡ value_in_basis F.coding.ops F.inverse level
        (column F.coding.ops.nought stripes (2 ^ level) c rows.old) (F.coding.point_of (first + p)) }
    ensures cost { steps.new ≤ steps.old
        + (last - from + 1) * (butterflies level * stripes + 2 ^ (level + 1)) }
{
    for coset in from..last {
        spare.copy_from_slice(rows);
        fill_coset(f, spare, stripes, level, coset, first, count, into, steps);
    }
    fill_coset(f, rows, stripes, level, last, first, count, into, steps);
}

/// Writes the values of each column at those of the numbers `first` to `first + count - 1` that lie in a coset.
fn fill_coset<F: Subspaces, L: Ledger>(
    f: &F,
    rows: &mut [F::Elem],
    stripes: usize,
    level: u32,
    coset: u16,
    first: usize,
    count: usize,
    into: &mut [F::Elem],
    steps: &mut Steps<L>,
)
    requires level { level ≤ MAX_LEVEL }
    requires below { level < F.LEVELS }
    requires elements { All F.is_element rows.old }
    requires size { length rows.old ≡ 2 ^ level * stripes }
    requires some { coset * 2 ^ level < first + count }
    requires near { first < coset * 2 ^ level + 2 ^ level }
    requires few { first + count ≤ MAX_PACKETS }
    requires points { first + count ≤ F.COUNT }
    requires room { length into.old ≡ count * stripes }
    ensures values { (p c : ℕ) → p < count → coset * 2 ^ level ≤ first + p
        → first + p < coset * 2 ^ level + 2 ^ level → c < stripes
        → slice_index_or into.new (p * stripes + c) F.coding.ops.nought
        ≡ value_in_basis F.coding.ops F.inverse level
        (column F.coding.ops.nought stripes (2 ^ level) c rows.old) (F.coding.point_of (first + p)) }
    ensures before { (p c : ℕ) → p < count → first + p < coset * 2 ^ level → c < stripes
        → slice_index_or into.new (p * stripes + c) F.coding.ops.nought
        ≡ slice_index_or into.old (p * stripes + c) F.coding.ops.nought }
    ensures cost { steps.new ≤ steps.old + (butterflies level * stripes + 2 ^ (level + 1)) }
{
    let size = size_at(level);
    let begin = usize::from(coset) * size;
    let low = first.max(begin);
    let high = (first + count).min(begin + size);
    let block = u32::from(coset);
    values_at_coset(f, rows, stripes, level, block, high - begin, steps);
    copy_rows(rows, stripes, low - begin, into, low - first, high - low);
}

/// Writes `count` rows of a width, from row `from` on, over those from row `to` on.
fn copy_rows<E: Copy>(
    rows: &[E],
    width: usize,
    from: usize,
    into: &mut [E],
    to: usize,
    count: usize,
)
    requires source { (from + count) * width ≤ length rows.now }
    requires target { (to + count) * width ≤ length into.old }
    ensures copied { (d : E) (p c : ℕ) → p < count → c < width
        → slice_index_or into.new ((to + p) * width + c) d
        ≡ slice_index_or rows.now ((from + p) * width + c) d }
    ensures before { (d : E) (i : ℕ) → i < to * width
        → slice_index_or into.new i d ≡ slice_index_or into.old i d }
{
    let start = from * width;
    let place = to * width;
    let words = count * width;
    into[place..place + words].copy_from_slice(&rows[start..start + words]);
}
