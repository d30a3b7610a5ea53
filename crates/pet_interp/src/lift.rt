//! One more point for all the stripes of a progressive state.
ghost use Rattle.std.specs.Prelude.{◌≡◌, ◌≢◌, ℕ, ◌+◌, ◌*◌, ◌-◌, ◌<◌, ◌≤◌, ◌++◌, length, take, drop, All, IfSome, IsTrue, map};
ghost use Rattle.pet_poly.specs.Value.{value_monic};
ghost use Rattle.pet_poly.specs.InPlace.{linear_product};
ghost use Rattle.pet_poly.specs.Rows.{words};
ghost use Rattle.pet_interp.specs.Progressive.{longer_than, step_bound};
ghost use Rattle.pet_interp.specs.Blocks.{IsBlock, stripes_in};
ghost use Rattle.pet_interp.specs.inside.Lifted.{begun_all, grown, grown_to, IsLifted};

use crate::block::StripeBlock;
use field_elements::Field;
use field_rows::Rows;
use pet_base::Steps;
use pet_poly::{eval_monic, times_linear};
use std::sync::ledger::Ledger;

/// Lifts the stripes and moves the product on, if a stripe is longer than the number of points that were met.
pub(crate) fn advance<F: Rows, L: Ledger>(
    f: &F,
    blocks: &mut [StripeBlock<F>],
    product: &mut [F::Elem],
    factors: &mut [F::Factor],
    met: usize,
    x: F::Elem,
    values: &[u8],
    steps: &mut Steps<L>,
)
    requires blocks { (room : ℕ) × All (IsBlock F.is_element met room) blocks.old }
    requires products { All F.is_element product.old }
    requires some { 0 < length product.old → 0 < length factors.old }
    requires point { F.is_element x }
    requires width { length values.now ≡ length (stripes_in blocks.old) * F.coding.width }
    requires weight { met < length product.old
        → value_monic F.coding.ops (take met product.old) x ≢ F.coding.ops.nought }
    ensures blocks { (room : ℕ) → All (IsBlock F.is_element met room) blocks.old
        → All (IsBlock F.is_element met room) blocks.new }
    ensures products { All F.is_element product.new }
    ensures lifted { met < length product.old
        → IsLifted F.is_element F.coding.ops (take met product.old) x
        (words F.coding.spelt F.coding.width (length (stripes_in blocks.old)) values.now)
        (stripes_in blocks.old) (stripes_in blocks.new) }
    ensures product { met < length product.old
        → product.new ≡ linear_product F.coding.ops x (take met product.old)
        ++ drop (met + 1) product.old }
    ensures same { length product.old ≤ met → (stripes_in blocks.new ≡ stripes_in blocks.old)
        × (product.new ≡ product.old) }
    ensures cost { met < length product.old
        → steps.new ≡ steps.old + step_bound met (map length (stripes_in blocks.old)) }
    ensures idle { length product.old ≤ met → steps.new ≡ steps.old }
{
    if met < product.len() {
        let weight = eval_monic(f, &product[..met], x, steps);
        let inverse = f.inv(weight, steps);
        let point = f.prepare(x);
        let by = f.prepare(inverse);
        begin(f, blocks, met, &point, &by, values, steps);
        add_product(f, blocks, &product[..met], factors, steps);
        times_linear(f, product, met, x, steps);
    }
}

/// Puts the multiple of the product that each stripe lacks to its value into the stripe's place `met`.
fn begin<F: Rows, L: Ledger>(
    f: &F,
    blocks: &mut [StripeBlock<F>],
    met: usize,
    x: &F::Factor,
    inverse: &F::Factor,
    values: &[u8],
    steps: &mut Steps<L>,
)
    requires blocks { (room : ℕ) × All (IsBlock F.is_element met room) blocks.old }
    requires point { F.is_element (F.element_of x.now) }
    requires inverse { F.is_element (F.element_of inverse.now) }
    requires width { length values.now ≡ length (stripes_in blocks.old) * F.coding.width }
    ensures blocks { (room : ℕ) → All (IsBlock F.is_element met room) blocks.old
        → All (IsBlock F.is_element met room) blocks.new }
    ensures stripes { stripes_in blocks.new ≡ begun_all F.coding.ops met (F.element_of x.now) (F.element_of inverse.now)
        (stripes_in blocks.old) (words F.coding.spelt F.coding.width (length (stripes_in blocks.old)) values.now) }
    ensures cost { steps.new ≡ steps.old + longer_than met (map length (stripes_in blocks.old)) * (met + 1) }
{
    let mut at = 0;
    for i in 0..blocks.len() {
        let end = at + blocks[i].width() * F::WIDTH;
        blocks[i].begin(f, met, x, inverse, &values[at..end], steps);
        at = end;
    }
}

/// Adds the multiples of the product, by as many of its coefficients at once as there are factors. These are prepared where a block
/// is wide.
fn add_product<F: Rows, L: Ledger>(
    f: &F,
    blocks: &mut [StripeBlock<F>],
    product: &[F::Elem],
    factors: &mut [F::Factor],
    steps: &mut Steps<L>,
)
    requires blocks { (room : ℕ) × All (IsBlock F.is_element (length product.now) room) blocks.old }
    requires products { All F.is_element product.now }
    requires some { 0 < length product.now → 0 < length factors.old }
    ensures blocks { (room : ℕ) → All (IsBlock F.is_element (length product.now) room) blocks.old
        → All (IsBlock F.is_element (length product.now) room) blocks.new }
    ensures stripes { stripes_in blocks.new ≡ map (grown_to F.coding.ops (length product.now) product.now) (stripes_in blocks.old) }
    ensures cost { steps.new ≡ steps.old + longer_than (length product.now) (map length (stripes_in blocks.old)) * length product.now }
{
    let met = product.len();
    let is_wide = blocks.iter().any(|block| block.is_wide(f));
    let mut from = 0;
    while from < met {
        let count = (met - from).min(factors.len());
        let by = &product[from..from + count];
        prepare(f, is_wide, by, &mut factors[..count]);
        let prepared = is_wide.then_some(&factors[..count]);
        add_part(f, blocks, met, from, by, prepared, steps);
        from += count;
    }
}

/// Prepares a factor for each element, where a block is wide.
fn prepare<F: Rows>(f: &F, is_wide: bool, elements: &[F::Elem], factors: &mut [F::Factor])
    requires long { length elements.now ≡ length factors.old }
    requires elements { All F.is_element elements.now }
    ensures { IsTrue is_wide → map F.element_of factors.new ≡ elements.now }
{
    if !is_wide {
        return;
    }
    for i in 0..elements.len() {
        factors[i] = f.prepare(elements[i]);
    }
}

/// Adds to the places from `from` on the multiples by these elements.
fn add_part<F: Rows, L: Ledger>(
    f: &F,
    blocks: &mut [StripeBlock<F>],
    met: usize,
    from: usize,
    by: &[F::Elem],
    factors: Option<&[F::Factor]>,
    steps: &mut Steps<L>,
)
    requires blocks { (room : ℕ) × All (IsBlock F.is_element met room) blocks.old }
    requires room { from + length by.now ≤ met }
    requires by { All F.is_element by.now }
    requires factors { IfSome factors (λ them. map F.element_of them.now ≡ by.now) }
    ensures blocks { (room : ℕ) → All (IsBlock F.is_element met room) blocks.old
        → All (IsBlock F.is_element met room) blocks.new }
    ensures stripes { stripes_in blocks.new ≡ map (grown F.coding.ops met from by.now) (stripes_in blocks.old) }
    ensures cost { steps.new ≡ steps.old + longer_than met (map length (stripes_in blocks.old)) * length by.now }
{
    for i in 0..blocks.len() {
        blocks[i].add_multiples(f, met, from, by, factors, steps);
    }
}

/// Turns the blocks back whose stripes are as long as the number of points that were met.
pub(crate) fn turn_back<F: Rows>(blocks: &mut [StripeBlock<F>], met: usize, spare: &mut [F::Elem])
    requires some { 0 < met }
    requires blocks { All (IsBlock F.is_element (met - 1) (length spare.old)) blocks.old }
    ensures blocks { All (IsBlock F.is_element met (length spare.new)) blocks.new }
    ensures stripes { stripes_in blocks.new ≡ stripes_in blocks.old }
{
    for i in 0..blocks.len() {
        blocks[i].turn_back(met, spare);
    }
}
