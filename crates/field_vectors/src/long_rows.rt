//! Rows of any length, by one prepared factor.
ghost use Rattle.std.specs.Prelude.{◌≡◌, ℕ, ◌+◌, ◌<◌, ◌≤◌, length, slice_index_or};
ghost use Rattle.field_rows.specs.declared.blocks.TheConstants.{MAX_WIDTH};

use crate::count::count_steps;
use crate::prepared::{Prepared, products};
use field_rows::MAX_WIDTH;
use pet_base::Steps;
use std::sync::ledger::Ledger;

/// Multiplies each element of a row by the factor. It counts one step for each.
#[inline(never)]
pub fn multiply_row<P: Prepared, L: Ledger>(by: &P, row: &mut [P::Elem], steps: &mut Steps<L>)
    ensures products { (i : ℕ) → i < length row.old → slice_index_or row.new i P.ops.nought
        ≡ P.ops.times (P.factor by.now) (slice_index_or row.old i P.ops.nought) }
    ensures cost { steps.new ≡ steps.old + length row.old }
{
    count_steps(steps, row.len());
    let mut at = 0;
    while at < row.len() {
        let end = at + MAX_WIDTH.min(row.len() - at);
        multiply_at(by, row, at);
        at = end;
    }
}

/// Adds to a row the multiple of another of its length by the factor. It counts one step for each element.
#[inline(never)]
pub fn add_multiple_row<P: Prepared, L: Ledger>(
    by: &P,
    other: &[P::Elem],
    into: &mut [P::Elem],
    steps: &mut Steps<L>,
)
    requires { length into.old ≡ length other.now }
    ensures sums { (i : ℕ) → i < length other.now → slice_index_or into.new i P.ops.nought
        ≡ P.ops.plus (slice_index_or into.old i P.ops.nought)
        (P.ops.times (P.factor by.now) (slice_index_or other.now i P.ops.nought)) }
    ensures cost { steps.new ≡ steps.old + length other.now }
{
    count_steps(steps, other.len());
    let mut at = 0;
    while at < other.len() {
        let end = at + MAX_WIDTH.min(other.len() - at);
        add_multiple_at(by, other, into, at);
        at = end;
    }
}

/// Adds to a row the multiple of another of its length by the factor, and to that what the first has become. It counts one step
/// for each element of a row.
#[inline(never)]
pub fn butterfly_row<P: Prepared, L: Ledger>(
    by: &P,
    low: &mut [P::Elem],
    high: &mut [P::Elem],
    steps: &mut Steps<L>,
)
    requires { length low.old ≡ length high.old }
    ensures low { (i : ℕ) → i < length high.old → slice_index_or low.new i P.ops.nought
        ≡ P.ops.plus (slice_index_or low.old i P.ops.nought)
        (P.ops.times (P.factor by.now) (slice_index_or high.old i P.ops.nought)) }
    ensures high { (i : ℕ) → i < length high.old → slice_index_or high.new i P.ops.nought
        ≡ P.ops.plus (slice_index_or high.old i P.ops.nought) (slice_index_or low.new i P.ops.nought) }
    ensures cost { steps.new ≡ steps.old + length high.old }
{
    count_steps(steps, high.len());
    let mut at = 0;
    while at < high.len() {
        let end = at + MAX_WIDTH.min(high.len() - at);
        butterfly_at(by, low, high, at);
        at = end;
    }
}

/// Multiplies `MAX_WIDTH` elements from `at` on, as far as there are elements.
#[inline(always)]
fn multiply_at<P: Prepared>(by: &P, row: &mut [P::Elem], at: usize)
    requires { at ≤ length row.old }
    ensures inside { (c : ℕ) → c < MAX_WIDTH → at + c < length row.old → slice_index_or row.new (at + c) P.ops.nought
        ≡ P.ops.times (P.factor by.now) (slice_index_or row.old (at + c) P.ops.nought) }
    ensures before { (i : ℕ) → i < at → slice_index_or row.new i P.ops.nought ≡ slice_index_or row.old i P.ops.nought }
    ensures behind { (i : ℕ) → at + MAX_WIDTH ≤ i
        → slice_index_or row.new i P.ops.nought ≡ slice_index_or row.old i P.ops.nought }
{
    P::store(products(by, P::load(row, at)), row, at);
}

/// Adds the multiples of `MAX_WIDTH` elements from `at` on, as far as there are elements.
#[inline(always)]
fn add_multiple_at<P: Prepared>(by: &P, other: &[P::Elem], into: &mut [P::Elem], at: usize)
    requires same { length into.old ≡ length other.now }
    requires place { at ≤ length other.now }
    ensures inside { (c : ℕ) → c < MAX_WIDTH → at + c < length other.now → slice_index_or into.new (at + c) P.ops.nought
        ≡ P.ops.plus (slice_index_or into.old (at + c) P.ops.nought)
        (P.ops.times (P.factor by.now) (slice_index_or other.now (at + c) P.ops.nought)) }
    ensures before { (i : ℕ) → i < at
        → slice_index_or into.new i P.ops.nought ≡ slice_index_or into.old i P.ops.nought }
    ensures behind { (i : ℕ) → at + MAX_WIDTH ≤ i
        → slice_index_or into.new i P.ops.nought ≡ slice_index_or into.old i P.ops.nought }
{
    let multiples = products(by, P::load(other, at));
    P::store(P::add(P::load(into, at), multiples), into, at);
}

/// The same of `MAX_WIDTH` elements from `at` on, as far as there are elements, with the sums added to the other row.
#[inline(always)]
fn butterfly_at<P: Prepared>(by: &P, low: &mut [P::Elem], high: &mut [P::Elem], at: usize)
    requires same { length low.old ≡ length high.old }
    requires place { at ≤ length high.old }
    ensures low { (c : ℕ) → c < MAX_WIDTH → at + c < length high.old → slice_index_or low.new (at + c) P.ops.nought
        ≡ P.ops.plus (slice_index_or low.old (at + c) P.ops.nought)
        (P.ops.times (P.factor by.now) (slice_index_or high.old (at + c) P.ops.nought)) }
    ensures high { (c : ℕ) → c < MAX_WIDTH → at + c < length high.old → slice_index_or high.new (at + c) P.ops.nought
        ≡ P.ops.plus (slice_index_or high.old (at + c) P.ops.nought) (slice_index_or low.new (at + c) P.ops.nought) }
    ensures before_low { (i : ℕ) → i < at
        → slice_index_or low.new i P.ops.nought ≡ slice_index_or low.old i P.ops.nought }
    ensures before_high { (i : ℕ) → i < at
        → slice_index_or high.new i P.ops.nought ≡ slice_index_or high.old i P.ops.nought }
    ensures behind_low { (i : ℕ) → at + MAX_WIDTH ≤ i
        → slice_index_or low.new i P.ops.nought ≡ slice_index_or low.old i P.ops.nought }
    ensures behind_high { (i : ℕ) → at + MAX_WIDTH ≤ i
        → slice_index_or high.new i P.ops.nought ≡ slice_index_or high.old i P.ops.nought }
{
    let from = P::load(high, at);
    let sum = P::add(P::load(low, at), products(by, from));
    P::store(sum, low, at);
    P::store(P::add(from, sum), high, at);
}
