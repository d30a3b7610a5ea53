//! A progressive state.
ghost use Rattle.std.specs.Prelude.{◌≡◌, ◌≢◌, ℕ, ◌+◌, ◌*◌, ◌-◌, ◌<◌, ◌≤◌, true, false, length, take, All, List, [], ◌∷◌, ◌++◌, slice_index, slice_index_or, replicate, IfOk};
ghost use Rattle.pet_interp.specs.Progressive.{StandsFor, stripe_of, lengths_of, column, step_bound, point_steps};
ghost use Rattle.pet_interp.specs.Blocks.{stripes_in, no_block, HasRoom};
ghost use Rattle.field_rows.specs.declared.blocks.TheConstants.{MAX_WIDTH};
ghost use Rattle.pet_poly.specs.Rows.{words};
ghost use Rattle.pet_interp.specs.Points.{GoesThrough, IsOnlyThrough};

use crate::block::StripeBlock;
use crate::copies::push_copies;
use crate::lift::{advance, turn_back};
use field_elements::Field;
use field_rows::{MAX_WIDTH, Rows};
use pet_base::{NoMemory, Steps};
use std::alloc::Global;
use std::marker::Model;
use std::sync::ledger::Ledger;

/// How many factors of the product are prepared at once.
const MOST_FACTORS: usize = 16;

/// What is known of each stripe after the points that were met. No point is kept.
#[derive(Drop)]
pub struct Progress<'f, F: Rows> {
    field: &'f F,
    /// The stripes, in the places that they take on end.
    blocks: Vec<StripeBlock<F>>,
    /// As many places as the longest stripe has. The first `met` of them are the product over the points.
    product: Vec<F::Elem>,
    /// Room for the factors that are prepared at once.
    factors: Vec<F::Factor>,
    /// Room for a block that is turned back.
    spare: Vec<F::Elem>,
    met: u32,
}

impl<'f, F: Rows> Model for Progress<'f, F> {
    ghost use Rattle.std.specs.Prelude.{take, length};
    ghost use Rattle.pet_interp.specs.Progressive.{Held};
    ghost use Rattle.pet_interp.specs.Blocks.{IsSound, stripes_in};

    ghost Value = { Held F.Elem };

    ghost view = { λ s. record { met = s.met; stripes = stripes_in s.blocks.items; product = take s.met s.product.items } };

    ghost invariant = { λ s. IsSound F.is_element s.met (length s.factors.items) (length s.spare.items) s.blocks.items s.product.items };
}

impl<'f, F: Rows> Progress<'f, F> {
    /// A state for stripes of these lengths that has met no point yet. It takes all the memory that it will need, and
    /// fails only for want of it.
    pub fn new(alloc: Global, f: &'f F, lengths: &[u16]) -> Result<Progress<'f, F>, NoMemory>
        ensures stands { IfOk result (λ p. StandsFor F.is_element F.coding.ops p []) }
        ensures lengths { IfOk result (λ p. lengths_of p ≡ lengths.now) }
    {
        let mut blocks = Vec::new(alloc);
        let mut product = Vec::new(alloc);
        let mut spare = Vec::new(alloc);
        let mut at = 0;
        while at < lengths.len() {
            let width = run_width(lengths, at);
            push_block(
                alloc,
                f,
                lengths[at],
                width,
                &mut blocks,
                &mut product,
                &mut spare,
            )?;
            at += width;
        }
        let factors = some_factors(alloc, f, product.len())?;
        Ok(Progress {
            field: f,
            blocks,
            product,
            factors,
            spare,
            met: 0,
        })
    }

    /// Adds the point `x`, with one value for each stripe, as the field writes them, one after another. The state must
    /// stand for some list of fewer than 65,536 points, none of them at `x`. It takes no memory, and counts
    /// (q + 1)(2r + 1) steps after r points, where q stripes are longer than r, and none where no stripe is.
    pub fn add<L: Ledger>(&mut self, x: F::Elem, values: &[u8], steps: &mut Steps<L>)
        requires stands { (points : List (F.Elem × List F.Elem))
            × (StandsFor F.is_element F.coding.ops self.old points × All (λ p. x ≢ p.0) points) }
        requires point { F.is_element x }
        requires few { self.old.met < 65536 }
        requires width { length values.now ≡ length self.old.stripes * F.coding.width }
        ensures stands { (points : List (F.Elem × List F.Elem))
            → StandsFor F.is_element F.coding.ops self.old points → All (λ p. x ≢ p.0) points
            → StandsFor F.is_element F.coding.ops self.new
            (points ++ ((x, words F.coding.spelt F.coding.width (length self.old.stripes) values.now) ∷ [])) }
        ensures met { self.new.met ≡ self.old.met + 1 }
        ensures lengths { lengths_of self.new ≡ lengths_of self.old }
        ensures cost { steps.new ≤ steps.old + step_bound self.old.met (lengths_of self.old) }
        ensures counted { steps.new ≡ steps.old + point_steps self.old.met (lengths_of self.old) }
    {
        let met = self.met as usize;
        advance(
            self.field,
            &mut self.blocks,
            &mut self.product,
            &mut self.factors,
            met,
            x,
            values,
            steps,
        );
        turn_back(&mut self.blocks, met + 1, &mut self.spare);
        self.met += 1;
    }

    /// How many points were met.
    pub fn met(&self) -> u32
        ensures { result ≡ self.now.met }
    {
        self.met
    }

    /// Whether no stripe is longer than the number of points that were met.
    pub fn is_whole(&self) -> bool
        ensures none { result ≡ true → (j : ℕ) → j < length self.now.stripes → length (stripe_of self.now j) ≤ self.now.met }
        ensures some { result ≡ false → (j : ℕ) × (j < length self.now.stripes) × (self.now.met < length (stripe_of self.now j)) }
    {
        self.product.len() <= self.met as usize
    }

    /// The only coefficients of a stripe through the points, where it is no longer than there are points. Where all the
    /// values that the stripe met lie on one list of its length, this is that list. It takes no memory.
    pub fn coefficients(&self, stripe: usize) -> &[F::Elem]
        requires stripe { stripe < length self.now.stripes }
        requires enough { length (stripe_of self.now stripe) ≤ self.now.met }
        ensures value { result.now ≡ stripe_of self.now stripe }
        ensures only { (points : List (F.Elem × List F.Elem))
            → StandsFor F.is_element F.coding.ops self.now points
            → IsOnlyThrough F.is_element F.coding.ops
            (column F.coding.ops stripe (take (length result.now) points)) result.now }
        ensures common { (points : List (F.Elem × List F.Elem)) (common : List F.Elem)
            → StandsFor F.is_element F.coding.ops self.now points
            → length common ≡ length result.now → All F.is_element common
            → GoesThrough F.coding.ops common (column F.coding.ops stripe points)
            → result.now ≡ common }
    {
        let (block, place) = find(&self.blocks, stripe);
        self.blocks[block].stripe(place)
    }
}

/// How many of the lengths from `at` on are equal, but at most as many as a block has.
fn run_width(lengths: &[u16], at: usize) -> usize
    requires { at < length lengths.now }
    ensures some { 0 < result }
    ensures narrow { result ≤ MAX_WIDTH }
    ensures inside { at + result ≤ length lengths.now }
    ensures same { (i : ℕ) → i < result → slice_index lengths.now (at + i) ≡ slice_index lengths.now at }
{
    let mut width = 1;
    while width < MAX_WIDTH && width < lengths.len() - at && lengths[at + width] == lengths[at] {
        width += 1;
    }
    width
}

/// Adds a block of so many stripes of this length, and all the room that it needs.
fn push_block<F: Rows>(
    alloc: Global,
    f: &F,
    size: u16,
    width: usize,
    blocks: &mut Vec<StripeBlock<F>>,
    product: &mut Vec<F::Elem>,
    spare: &mut Vec<F::Elem>,
) -> Result<(), NoMemory>
    requires some { 0 < width }
    requires narrow { width ≤ MAX_WIDTH }
    ensures { IfOk result (λ _. (lengths : List ℕ)
        → HasRoom F.is_element lengths blocks.old.items product.old.items spare.old.items
        → HasRoom F.is_element (lengths ++ replicate width size) blocks.new.items product.new.items spare.new.items) }
{
    let count = usize::from(size);
    grow(product, f.zero(), count)?;
    grow(spare, f.zero(), count * width)?;
    let block = StripeBlock::new(alloc, f, size, width)?;
    blocks.push(block)?;
    Ok(())
}

/// Adds copies until there are so many elements.
fn grow<E: Copy + Drop>(into: &mut Vec<E>, value: E, count: usize) -> Result<(), NoMemory>
    ensures { IfOk result (λ _. into.new.items ≡ into.old.items ++ replicate (count - length into.old.items) value) }
{
    let more = count.saturating_sub(into.len());
    push_copies(into, value, more)
}

/// Room for the factors of a product of so many coefficients.
fn some_factors<F: Rows>(alloc: Global, f: &F, count: usize) -> Result<Vec<F::Factor>, NoMemory>
    ensures { IfOk result (λ factors. 0 < count → 0 < length factors.items) }
{
    let mut factors = Vec::new(alloc);
    for i in 0..count.min(MOST_FACTORS) {
        factors.push(f.prepare(f.zero()))?;
    }
    Ok(factors)
}

/// In which block a stripe stands, and at which place.
fn find<F: Rows>(blocks: &[StripeBlock<F>], stripe: usize) -> (usize, usize)
    requires { stripe < length (stripes_in blocks.now) }
    ensures block { result.0 < length blocks.now }
    ensures place { result.1 < length (slice_index_or blocks.now result.0 no_block).stripes }
    ensures stripe { slice_index_or (slice_index_or blocks.now result.0 no_block).stripes result.1 []
        ≡ slice_index_or (stripes_in blocks.now) stripe [] }
{
    let mut block = 0;
    let mut place = stripe;
    while place >= blocks[block].width() {
        place -= blocks[block].width();
        block += 1;
    }
    (block, place)
}
