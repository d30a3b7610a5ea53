//! What is done with many words alike.
ghost use Rattle.std.specs.Prelude.{◌≡◌, ℕ, ◌+◌, ◌<◌, ◌≤◌, length, slice_index_or, All, true, false};

use crate::subspaces::Subspaces;
use field_elements::Field;
use pet_base::Steps;
use std::sync::ledger::Ledger;

/// Adds words, of which those from `known` on are zero, to as many words.
pub(crate) fn add_words<F: Field>(f: &F, into: &mut [F::Elem], other: &[F::Elem], known: usize)
    requires same { length into.old ≡ length other.now }
    requires zeros { (i : ℕ) → known ≤ i → slice_index_or other.now i F.coding.ops.nought ≡ F.coding.ops.nought }
    requires first { All F.is_element into.old }
    requires second { All F.is_element other.now }
    ensures sums { (i : ℕ) → i < length other.now → slice_index_or into.new i F.coding.ops.nought
        ≡ F.coding.ops.plus (slice_index_or into.old i F.coding.ops.nought) (slice_index_or other.now i F.coding.ops.nought) }
    ensures elements { All F.is_element into.new }
{
    for i in 0..known.min(other.len()) {
        into[i] = f.add(into[i], other[i]);
    }
}

/// Adds a multiple of words to as many words. It counts one step for each word, and none where the factor is said to be 0.
pub(crate) fn add_multiple<F: Subspaces, L: Ledger>(
    f: &F,
    into: &mut [F::Elem],
    other: &[F::Elem],
    by: F::Elem,
    none: bool,
    steps: &mut Steps<L>,
)
    requires same { length into.old ≡ length other.now }
    requires factor { F.is_element by }
    requires nothing { none ≡ true → by ≡ F.coding.ops.nought }
    requires first { All F.is_element into.old }
    requires second { All F.is_element other.now }
    ensures sums { (i : ℕ) → i < length other.now → slice_index_or into.new i F.coding.ops.nought
        ≡ F.coding.ops.plus (slice_index_or into.old i F.coding.ops.nought) (F.coding.ops.times by (slice_index_or other.now i F.coding.ops.nought)) }
    ensures elements { All F.is_element into.new }
    ensures cost { none ≡ false → steps.new ≡ steps.old + length other.now }
    ensures free { none ≡ true → steps.new ≡ steps.old }
{
    if !none {
        f.add_multiple_row(by, other, into, steps);
    }
}

/// Adds a multiple of the words of `high` to those of `low`, and what these have become to `high`. It counts one step for each
/// word of `high`, and none where the factor is said to be 0.
pub(crate) fn butterfly<F: Subspaces, L: Ledger>(
    f: &F,
    low: &mut [F::Elem],
    high: &mut [F::Elem],
    by: F::Elem,
    none: bool,
    steps: &mut Steps<L>,
)
    requires same { length low.old ≡ length high.old }
    requires factor { F.is_element by }
    requires nothing { none ≡ true → by ≡ F.coding.ops.nought }
    requires first { All F.is_element low.old }
    requires second { All F.is_element high.old }
    ensures low { (i : ℕ) → i < length high.old → slice_index_or low.new i F.coding.ops.nought
        ≡ F.coding.ops.plus (slice_index_or low.old i F.coding.ops.nought) (F.coding.ops.times by (slice_index_or high.old i F.coding.ops.nought)) }
    ensures high { (i : ℕ) → i < length high.old → slice_index_or high.new i F.coding.ops.nought
        ≡ F.coding.ops.plus (slice_index_or low.new i F.coding.ops.nought) (slice_index_or high.old i F.coding.ops.nought) }
    ensures elements { All F.is_element low.new }
    ensures others { All F.is_element high.new }
    ensures cost { none ≡ false → steps.new ≡ steps.old + length high.old }
    ensures free { none ≡ true → steps.new ≡ steps.old }
{
    if none {
        add_words(f, high, low, low.len());
    } else {
        f.butterfly_row(by, low, high, steps);
    }
}

/// Multiplies words, of which those from `known` on are zero, and stay so. It counts one step for each word before them, and none
/// where the factor is said to be 1.
pub(crate) fn multiply<F: Subspaces, L: Ledger>(
    f: &F,
    words: &mut [F::Elem],
    by: F::Elem,
    once: bool,
    known: usize,
    steps: &mut Steps<L>,
)
    requires factor { F.is_element by }
    requires unit { once ≡ true → by ≡ F.coding.ops.unit }
    requires words { All F.is_element words.old }
    requires fits { known ≤ length words.old }
    requires zeros { (i : ℕ) → known ≤ i → slice_index_or words.old i F.coding.ops.nought ≡ F.coding.ops.nought }
    ensures products { (i : ℕ) → i < length words.old → slice_index_or words.new i F.coding.ops.nought
        ≡ F.coding.ops.times by (slice_index_or words.old i F.coding.ops.nought) }
    ensures zeros { (i : ℕ) → known ≤ i → slice_index_or words.new i F.coding.ops.nought ≡ F.coding.ops.nought }
    ensures elements { All F.is_element words.new }
    ensures cost { once ≡ false → steps.new ≡ steps.old + known }
    ensures free { once ≡ true → steps.new ≡ steps.old }
{
    if !once {
        let (front, _zeros) = words.split_at_mut(known);
        f.multiply_row(by, front, steps);
    }
}
