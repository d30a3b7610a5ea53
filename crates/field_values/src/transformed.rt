//! The values of all stripes at many points by the additive fast Fourier transform, over any field that has its constants.
ghost use Rattle.std.specs.Prelude.{◌≡◌, ℕ, ◌+◌, ◌*◌, ◌<◌, ◌≤◌, ◌^◌, length, map, All, IfOk, IfSome, IfNone, vec_len, true, false};
ghost use Rattle.field_transform.specs.Steps.{butterflies};
ghost use Rattle.pet_poly.specs.Value.{value};
ghost use Rattle.field_rows.specs.Blocks.{columns_of, size_of, width_of};
ghost use Rattle.field_values.specs.Matrix.{HasRows};

use crate::cosets::{MAX_LEVEL, coset_of, size_at, transform, transform_in_place};
use crate::wide::side_by_side;
use field_rows::Block;
use field_transform::Subspaces;
use pet_base::{MAX_PACKETS, Steps};
use std::alloc::{AllocError, Global};
use std::sync::ledger::Ledger;

/// The most words of the buffers of a transform: 16 MB, where a word has two bytes.
const MAX_WIDE: usize = 8_388_608;

/// The most words of one buffer for each word of the stripes.
const MAX_PADDING: usize = 4;

/// The least of so many levels that has at least so many rows, if there is one that is not above `MAX_LEVEL`.
fn level_of(rows: usize, levels: u32) -> Option<u32>
    ensures below { IfSome result (λ level. level < levels) }
    ensures few { IfSome result (λ level. level ≤ MAX_LEVEL) }
    ensures enough { IfSome result (λ level. rows ≤ 2 ^ level) }
{
    let mut size = 1;
    for level in 0..levels.min(MAX_LEVEL + 1) {
        if rows <= size {
            return Some(level);
        }
        size *= 2;
    }
    None
}

/// The most elements that a stripe has.
fn longest(blocks: &[Block]) -> usize
    ensures { All (λ b. b.length ≤ result) blocks.now }
{
    let mut most = 0;
    for i in 0..blocks.len() {
        most = most.max(blocks[i].length);
    }
    most
}

/// Whether a transform of this level is taken for so many stripes, the longest of which has `known` words and all together
/// `words`, and so many cosets behind the first: a bound on its products is at most what Horner's rule makes, and its buffers
/// are small.
fn is_taken(
    level: u32,
    known: usize,
    stripes: usize,
    further: u16,
    count: usize,
    words: usize,
) -> bool
    requires level { level ≤ MAX_LEVEL }
    requires known { known ≤ 2 ^ level }
    requires count { count ≤ MAX_PACKETS }
    ensures room { result ≡ true → 2 ^ level * stripes < 2 ^ 64 }
    ensures cost { result ≡ true → level * (known * stripes) + 2 ^ (level + 1)
        + (further + 1) * (butterflies level * stripes + 2 ^ (level + 1)) ≤ count * words }
{
    let size = size_at(level);
    let Some(wide) = size.checked_mul(stripes) else {
        return false;
    };
    let buffers = if further == 0 { 1 } else { 2 };
    if words > MAX_WIDE || wide > MAX_WIDE / buffers || wide > MAX_PADDING * words {
        return false;
    }
    // twice the bounds of what is made
    let converted = 2 * (level as usize * (known * stripes) + 2 * size);
    let flown = level as usize * wide + 4 * size;
    if converted + (usize::from(further) + 1) * flown > 2 * count * words {
        return false;
    }
    true
}

/// Room for one coset more than the first, if there are several.
fn room_for<E: Copy>(
    alloc: Global,
    several: bool,
    words: usize,
    zero: E,
) -> Result<Vec<E>, AllocError>
    ensures { IfOk result (λ v. several ≡ true → vec_len v ≡ words) }
{
    let room = if several { words } else { 0 };
    vec![in alloc; zero; room]
}

/// Writes the values of all stripes at the points of the numbers `first` to `first + count - 1`, a row for each number, if a
/// transform is taken and there is memory for its buffers. Answers whether it did.
pub(crate) fn fill_transformed<F: Subspaces, L: Ledger>(
    f: &F,
    alloc: Global,
    blocks: &[Block],
    laid: &[F::Elem],
    stripes: usize,
    first: usize,
    count: usize,
    into: &mut [F::Elem],
    steps: &mut Steps<L>,
) -> bool
    requires whole { length laid.now ≡ size_of blocks.now }
    requires stripes { stripes ≡ width_of blocks.now }
    requires elements { All F.is_element laid.now }
    requires points { first + count ≤ F.COUNT }
    requires few { first + count ≤ MAX_PACKETS }
    requires room { length into.old ≡ count * stripes }
    ensures rows { result ≡ true → HasRows stripes count
        (λ p. map (λ s. value F.coding.ops s (F.coding.point_of (first + p)))
        (columns_of F.coding.ops.nought blocks.now laid.now)) into.new }
    ensures cost { steps.new ≤ steps.old + count * length laid.now }
    ensures none { result ≡ false → steps.new ≡ steps.old }
{
    if count == 0 {
        return false;
    }
    let most = longest(blocks);
    let Some(level) = level_of(most, F::LEVELS) else {
        return false;
    };
    let size = size_at(level);
    let from = coset_of(first, level);
    let last = coset_of(first + count - 1, level);
    if !is_taken(level, most, stripes, last - from, count, laid.len()) {
        return false;
    }
    let Ok(mut rows) = side_by_side(alloc, f, blocks, laid, stripes, size) else {
        return false;
    };
    let Ok(mut spare) = room_for(alloc, from < last, size * stripes, f.zero()) else {
        return false;
    };
    transform(
        f, &mut rows, &mut spare, stripes, level, most, from, last, first, count, into, steps,
    );
    true
}

/// The values of all stripes at the points of the numbers `first` to `first + count - 1`, a row for each number, where these are
/// the first of a coset, a transform is taken and there is memory for its buffer: they are the first rows of it.
pub(crate) fn transformed_rows<F: Subspaces, L: Ledger>(
    f: &F,
    alloc: Global,
    blocks: &[Block],
    laid: &[F::Elem],
    stripes: usize,
    first: usize,
    count: usize,
    steps: &mut Steps<L>,
) -> Option<Vec<F::Elem>>
    requires whole { length laid.now ≡ size_of blocks.now }
    requires stripes { stripes ≡ width_of blocks.now }
    requires room { count * stripes < 2 ^ 64 }
    requires elements { All F.is_element laid.now }
    requires points { first + count ≤ F.COUNT }
    requires few { first + count ≤ MAX_PACKETS }
    ensures rows { IfSome result (λ values. HasRows stripes count
        (λ p. map (λ s. value F.coding.ops s (F.coding.point_of (first + p)))
        (columns_of F.coding.ops.nought blocks.now laid.now)) values.items) }
    ensures cost { steps.new ≤ steps.old + count * length laid.now }
    ensures none { IfNone result (steps.new ≡ steps.old) }
{
    if count == 0 {
        return None;
    }
    let most = longest(blocks);
    let Some(level) = level_of(most, F::LEVELS) else {
        return None;
    };
    let size = size_at(level);
    let coset = coset_of(first, level);
    if usize::from(coset) * size != first || count > size {
        return None;
    }
    if !is_taken(level, most, stripes, 0, count, laid.len()) {
        return None;
    }
    let Ok(mut rows) = side_by_side(alloc, f, blocks, laid, stripes, size) else {
        return None;
    };
    transform_in_place(f, &mut rows, stripes, level, most, coset, count, steps);
    rows.truncate(count * stripes);
    Some(rows)
}
