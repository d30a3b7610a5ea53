//! Blocks of stripes of one length, one block after another.
ghost use Rattle.std.specs.Prelude.{◌≡◌, ◌+◌, ◌≤◌, List, [], ◌∷◌, ◌++◌, length, map, All, OnOk, OnErr};
ghost use Rattle.pet_poly.specs.Value.{value};
ghost use Rattle.field_rows.specs.Blocks.{columns_of, lengths_of, size_of, width_of};

use crate::rows::Rows;
use pet_base::{NoMemory, Steps};
use std::sync::ledger::Ledger;

/// The most stripes of a block: as many elements as a vector of the kernels has.
pub const MAX_WIDTH: usize = 32;

/// So many stripes of one length, side by side.
#[derive(Clone, Copy, Drop)]
pub struct Block {
    /// How many elements each stripe has.
    pub length: usize,
    /// How many stripes there are.
    pub width: usize,
}

/// Puts one more stripe behind those of the blocks: into the last block, if that has stripes of this length and is not
/// full. It fails only for want of memory, and the blocks are then as before.
pub fn push_stripe(blocks: &mut Vec<Block>, length: usize) -> Result<(), NoMemory>
    requires narrow { All (λ b. b.width ≤ MAX_WIDTH) blocks.old.items }
    ensures lengths { OnOk result (lengths_of blocks.new.items
        ≡ lengths_of blocks.old.items ++ (length ∷ [])) }
    ensures narrow { All (λ b. b.width ≤ MAX_WIDTH) blocks.new.items }
    ensures same { OnErr result (blocks.new.items ≡ blocks.old.items) }
{
    let count = blocks.len();
    if count > 0 {
        let last = blocks[count - 1];
        if last.length == length && last.width < MAX_WIDTH {
            let width = last.width + 1;
            blocks[count - 1] = Block { length, width };
            return Ok(());
        }
    }
    blocks.push(Block { length, width: 1 })?;
    Ok(())
}

/// The values at the factor of all stripes, whose elements stand block after block, each block row by row. It counts one
/// step for each element.
#[tactic(auto, using(crate::proofs::FirstBlocks::room_size, crate::proofs::FirstBlocks::room_width))]
pub fn block_values<F: Rows, L: Ledger>(
    f: &F,
    blocks: &[Block],
    laid: &[F::Elem],
    x: &F::Factor,
    into: &mut [F::Elem],
    steps: &mut Steps<L>,
)
    requires narrow { All (λ b. b.width ≤ MAX_WIDTH) blocks.now }
    requires whole { length laid.now ≡ size_of blocks.now }
    requires room { length into.old ≡ width_of blocks.now }
    requires elements { All F.is_element laid.now }
    requires point { F.is_element (F.element_of x.now) }
    ensures values { into.new ≡ map (λ s. value F.coding.ops s (F.element_of x.now))
        (columns_of F.coding.ops.nought blocks.now laid.now) }
    ensures cost { steps.new ≡ steps.old + length laid.now }
{
    let mut at = 0;
    let mut to = 0;
    for i in 0..blocks.len() {
        let block = blocks[i];
        let end = at + block.length * block.width;
        let till = to + block.width;
        let part = &laid[at..end];
        f.values(part, block.length, x, &mut into[to..till], steps);
        at = end;
        to = till;
    }
}
