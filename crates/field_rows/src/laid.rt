//! Stripes on end, laid out in blocks.
ghost use Rattle.std.specs.Prelude.{◌≡◌, ◌≢◌, ℕ, ◌+◌, ◌*◌, ◌<◌, ◌≤◌, length, slice_index_or};
ghost use Rattle.field_rows.specs.Blocks.{columns_of, size_of, stripes_of};

use crate::blocks::Block;

/// Lays out a row of stripes on end: the columns of the blocks are the stripes.
#[tactic(auto, using(crate::proofs::FirstBlocks::room_size))]
pub fn lay_out<E: Copy>(blocks: &[Block], row: &[E], laid: &mut [E])
    requires row { length row.now ≡ size_of blocks.now }
    requires laid { length laid.old ≡ size_of blocks.now }
    ensures { (d : E) → columns_of d blocks.now laid.new ≡ stripes_of blocks.now row.now }
{
    let mut at = 0;
    for i in 0..blocks.len() {
        let block = blocks[i];
        let end = at + block.length * block.width;
        transpose(&row[at..end], block.length, block.width, &mut laid[at..end]);
        at = end;
    }
}

/// Writes `width` stripes of `count` elements each, which stand on end, as the columns of `count` rows: stripe c in column
/// c. With `count` and `width` changed about it writes columns back as stripes.
pub fn transpose<E: Copy>(from: &[E], count: usize, width: usize, into: &mut [E])
    requires from { length from.now ≡ count * width }
    requires into { length into.old ≡ count * width }
    ensures { (d : E) (c j : ℕ) → c < width → j < count →
        slice_index_or into.new (j * width + c) d ≡ slice_index_or from.now (c * count + j) d }
{
    let mut start = 0;
    for c in 0..width {
        let end = start + count;
        scatter(&from[start..end], c, width, into);
        start = end;
    }
}

/// Writes a column.
#[inline(always)]
fn scatter<E: Copy>(from: &[E], c: usize, width: usize, into: &mut [E])
    requires column { c < width }
    requires room { length into.old ≡ length from.now * width }
    ensures written { (d : E) (j : ℕ) → j < length from.now →
        slice_index_or into.new (j * width + c) d ≡ slice_index_or from.now j d }
    ensures others { (d : E) (j n : ℕ) → n < width → n ≢ c →
        slice_index_or into.new (j * width + n) d ≡ slice_index_or into.old (j * width + n) d }
{
    for j in 0..from.len() {
        into[j * width + c] = from[j];
    }
}
