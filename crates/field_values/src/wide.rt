//! The stripes of blocks side by side, in rows as wide as there are stripes.
ghost use Rattle.std.specs.Prelude.{◌≡◌, ℕ, ◌+◌, ◌*◌, ◌<◌, ◌≤◌, ◌^◌, length, replicate, All, IfOk, slice_index_or, vec_len};
ghost use Rattle.field_rows.specs.Blocks.{columns_of, size_of, width_of};
ghost use Rattle.field_values.specs.Wide.{AreSideBySide};

use field_elements::Field;
use field_rows::Block;
use pet_base::NoMemory;
use std::alloc::Global;

/// How many copies of an element are made one by one.
const AT_ONCE: usize = 512;

/// The stripes that the blocks keep, of which there are `stripes`, side by side in `size` rows: column c is stripe c and then
/// zeros. It fails only for want of memory.
pub fn side_by_side<F: Field>(
    alloc: Global,
    f: &F,
    blocks: &[Block],
    laid: &[F::Elem],
    stripes: usize,
    size: usize,
) -> Result<Vec<F::Elem>, NoMemory>
    requires whole { length laid.now ≡ size_of blocks.now }
    requires stripes { stripes ≡ width_of blocks.now }
    requires short { All (λ b. b.length ≤ size) blocks.now }
    requires room { size * stripes < 2 ^ 64 }
    ensures { IfOk result (λ rows. AreSideBySide F.coding.ops.nought size
        (columns_of F.coding.ops.nought blocks.now laid.now) rows.items) }
{
    let mut rows = repeated(alloc, f.zero(), size * stripes)?;
    place_blocks(blocks, laid, stripes, size, f.zero(), &mut rows);
    Ok(rows)
}

/// One element, so many times. A clone of it need not be that element, so it is copied, and then many at once.
fn repeated<E: Copy>(alloc: Global, element: E, count: usize) -> Result<Vec<E>, NoMemory>
    ensures items { IfOk result (λ row. row.items ≡ replicate count element) }
    ensures len { IfOk result (λ row. vec_len row ≡ count) }
{
    let some = few_of(alloc, element, count.min(AT_ONCE))?;
    let mut row = Vec::with_capacity(alloc, count)?;
    let mut done = 0;
    while done < count {
        let more = (count - done).min(some.len());
        row.extend_from_slice(&some[..more])?;
        done += more;
    }
    Ok(row)
}

/// One element, so many times, copy after copy.
fn few_of<E: Copy>(alloc: Global, element: E, count: usize) -> Result<Vec<E>, NoMemory>
    ensures items { IfOk result (λ row. row.items ≡ replicate count element) }
    ensures len { IfOk result (λ row. vec_len row ≡ count) }
{
    let mut row = Vec::with_capacity(alloc, count)?;
    for _ in 0..count {
        row.push(element)?;
    }
    Ok(row)
}

/// Writes the stripes of the blocks into the columns of `size` rows of `stripes` elements, where `zero` stands.
#[tactic(auto, using(field_rows::proofs::FirstBlocks::room_size, field_rows::proofs::FirstBlocks::room_width))]
fn place_blocks<E: Copy>(
    blocks: &[Block],
    laid: &[E],
    stripes: usize,
    size: usize,
    zero: E,
    into: &mut [E],
)
    requires whole { length laid.now ≡ size_of blocks.now }
    requires stripes { stripes ≡ width_of blocks.now }
    requires short { All (λ b. b.length ≤ size) blocks.now }
    requires room { length into.old ≡ size * stripes }
    requires zeros { (i : ℕ) → slice_index_or into.old i zero ≡ zero }
    ensures { AreSideBySide zero size (columns_of zero blocks.now laid.now) into.new }
{
    let mut at = 0;
    let mut lane = 0;
    for i in 0..blocks.len() {
        let block = blocks[i];
        let end = at + block.length * block.width;
        place_rows(
            &laid[at..end],
            block.length,
            block.width,
            into,
            size,
            stripes,
            lane,
        );
        at = end;
        lane += block.width;
    }
}

/// Writes `count` rows of `width` elements each into the places from `lane` on of the first of `size` rows of `stripes`
/// elements each; all other places stay.
fn place_rows<E: Copy>(
    rows: &[E],
    count: usize,
    width: usize,
    into: &mut [E],
    size: usize,
    stripes: usize,
    lane: usize,
)
    requires lane { lane + width ≤ stripes }
    requires rows { length rows.now ≡ count * width }
    requires fewer { count ≤ size }
    requires into { length into.old ≡ size * stripes }
    ensures placed { (d : E) (p c : ℕ) → p < count → c < width →
        slice_index_or into.new (p * stripes + (lane + c)) d ≡ slice_index_or rows.now (p * width + c) d }
    ensures others { (d : E) (p n : ℕ) → n < stripes → (p < count → lane ≤ n → lane + width ≤ n) →
        slice_index_or into.new (p * stripes + n) d ≡ slice_index_or into.old (p * stripes + n) d }
{
    let mut from = 0;
    let mut at = 0;
    for _ in 0..count {
        let to = at + lane;
        into[to..to + width].copy_from_slice(&rows[from..from + width]);
        from += width;
        at += stripes;
    }
}
