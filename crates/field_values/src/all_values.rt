//! The values of all stripes at many points: a row for each point.
ghost use Rattle.std.specs.Prelude.{◌≡◌, ℕ, ◌+◌, ◌*◌, ◌<◌, ◌≤◌, ◌^◌, length, map, All, IfOk};
ghost use Rattle.pet_poly.specs.Value.{value};
ghost use Rattle.field_rows.specs.Blocks.{columns_of, size_of, width_of};
ghost use Rattle.field_values.specs.Matrix.{HasRows};

use crate::transformed::{fill_transformed, transformed_rows};
use field_rows::{Block, MAX_WIDTH, Rows, block_values};
use field_transform::Subspaces;
use pet_base::{MAX_PACKETS, NoMemory, Steps};
use std::alloc::Global;
use std::sync::ledger::Ledger;

/// A field that gives the values of all stripes at the points of a range of numbers. A field has this call point after point,
/// by Horner's rule; a faster body has the same contract.
pub trait AllValues: Rows {
    /// The values of all stripes that the blocks keep, of which there are `stripes`, at the points of the numbers `first` to
    /// `first + count - 1`: a row for each number. It counts at most one step for each word and number, as many as Horner's
    /// rule has products. It fails only for want of memory.
    fn value_rows<L: Ledger>(
        &self,
        alloc: Global,
        blocks: &[Block],
        laid: &[Self::Elem],
        stripes: usize,
        first: usize,
        count: usize,
        steps: &mut Steps<L>,
    ) -> Result<Vec<Self::Elem>, NoMemory>
        requires narrow { All (λ b. b.width ≤ MAX_WIDTH) blocks.now }
        requires whole { length laid.now ≡ size_of blocks.now }
        requires stripes { stripes ≡ width_of blocks.now }
        requires room { count * stripes < 2 ^ 64 }
        requires elements { All Self.is_element laid.now }
        requires points { first + count ≤ Self.COUNT }
        requires few { first + count ≤ MAX_PACKETS }
        ensures rows { IfOk result (λ values. HasRows stripes count
            (λ p. map (λ s. value Self.coding.ops s (Self.coding.point_of (first + p)))
            (columns_of Self.coding.ops.nought blocks.now laid.now)) values.items) }
        ensures cost { steps.new ≤ steps.old + count * length laid.now }
    {
        point_by_point(self, alloc, blocks, laid, stripes, first, count, steps)
    }
}

/// A field that has the constants of the transform: by the additive fast Fourier transform where that makes no more products,
/// its buffers are small and there is memory for them, and else point after point.
impl<F: Subspaces + Rows> AllValues for F {
    fn value_rows<L: Ledger>(
        &self,
        alloc: Global,
        blocks: &[Block],
        laid: &[F::Elem],
        stripes: usize,
        first: usize,
        count: usize,
        steps: &mut Steps<L>,
    ) -> Result<Vec<F::Elem>, NoMemory> {
        let at_once = transformed_rows(self, alloc, blocks, laid, stripes, first, count, steps);
        if let Some(values) = at_once {
            return Ok(values);
        }
        let mut values = vec![in alloc; self.zero(); count * stripes]?;
        fill_values(
            self,
            alloc,
            blocks,
            laid,
            stripes,
            first,
            count,
            &mut values,
            steps,
        );
        Ok(values)
    }
}

/// Writes the values of all stripes at these points into the rows, by a transform or point after point.
fn fill_values<F: Subspaces + Rows, L: Ledger>(
    f: &F,
    alloc: Global,
    blocks: &[Block],
    laid: &[F::Elem],
    stripes: usize,
    first: usize,
    count: usize,
    into: &mut [F::Elem],
    steps: &mut Steps<L>,
)
    requires narrow { All (λ b. b.width ≤ MAX_WIDTH) blocks.now }
    requires whole { length laid.now ≡ size_of blocks.now }
    requires stripes { stripes ≡ width_of blocks.now }
    requires elements { All F.is_element laid.now }
    requires points { first + count ≤ F.COUNT }
    requires few { first + count ≤ MAX_PACKETS }
    requires room { length into.old ≡ count * stripes }
    ensures rows { HasRows stripes count
        (λ p. map (λ s. value F.coding.ops s (F.coding.point_of (first + p)))
        (columns_of F.coding.ops.nought blocks.now laid.now)) into.new }
    ensures cost { steps.new ≤ steps.old + count * length laid.now }
{
    if !fill_transformed(f, alloc, blocks, laid, stripes, first, count, into, steps) {
        fill_rows(f, blocks, laid, stripes, first, count, into, steps);
    }
}

/// These rows point after point, by Horner's rule.
fn point_by_point<F: Rows, L: Ledger>(
    f: &F,
    alloc: Global,
    blocks: &[Block],
    laid: &[F::Elem],
    stripes: usize,
    first: usize,
    count: usize,
    steps: &mut Steps<L>,
) -> Result<Vec<F::Elem>, NoMemory>
    requires narrow { All (λ b. b.width ≤ MAX_WIDTH) blocks.now }
    requires whole { length laid.now ≡ size_of blocks.now }
    requires stripes { stripes ≡ width_of blocks.now }
    requires room { count * stripes < 2 ^ 64 }
    requires elements { All F.is_element laid.now }
    requires points { first + count ≤ F.COUNT }
    requires few { first + count ≤ MAX_PACKETS }
    ensures rows { IfOk result (λ values. HasRows stripes count
        (λ p. map (λ s. value F.coding.ops s (F.coding.point_of (first + p)))
        (columns_of F.coding.ops.nought blocks.now laid.now)) values.items) }
    ensures cost { steps.new ≤ steps.old + count * length laid.now }
{
    let mut values = vec![in alloc; f.zero(); count * stripes]?;
    fill_rows(f, blocks, laid, stripes, first, count, &mut values, steps);
    Ok(values)
}

/// Writes the values of all stripes at these points into the rows, point after point. It counts one step for each word and
/// number.
fn fill_rows<F: Rows, L: Ledger>(
    f: &F,
    blocks: &[Block],
    laid: &[F::Elem],
    stripes: usize,
    first: usize,
    count: usize,
    into: &mut [F::Elem],
    steps: &mut Steps<L>,
)
    requires narrow { All (λ b. b.width ≤ MAX_WIDTH) blocks.now }
    requires whole { length laid.now ≡ size_of blocks.now }
    requires stripes { stripes ≡ width_of blocks.now }
    requires elements { All F.is_element laid.now }
    requires points { first + count ≤ F.COUNT }
    requires few { first + count ≤ MAX_PACKETS }
    requires room { length into.old ≡ count * stripes }
    ensures rows { HasRows stripes count
        (λ p. map (λ s. value F.coding.ops s (F.coding.point_of (first + p)))
        (columns_of F.coding.ops.nought blocks.now laid.now)) into.new }
    ensures cost { steps.new ≡ steps.old + count * length laid.now }
{
    let mut at = 0;
    for p in 0..count {
        let end = at + stripes;
        let x = f.prepare(f.point((first + p) as u32));
        block_values(f, blocks, laid, &x, &mut into[at..end], steps);
        at = end;
    }
}
