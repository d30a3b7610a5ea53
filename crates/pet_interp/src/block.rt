//! A block of a progressive state: adjacent stripes of one length.
ghost use Rattle.std.specs.Prelude.{◌≡◌, ◌≢◌, ℕ, ◌+◌, ◌*◌, ◌-◌, ◌<◌, ◌≤◌, List, [], false, length, map, All, IfOk, IfSome, slice_index_or, nat_lt};
ghost use Rattle.field_rows.specs.declared.blocks.TheConstants.{MAX_WIDTH};
ghost use Rattle.pet_poly.specs.Rows.{words};
ghost use Rattle.pet_interp.specs.Progressive.{longer_than};
ghost use Rattle.pet_interp.specs.inside.Lifted.{begun_all, grown};

use crate::copies::push_copies;
use crate::rows::{add_rows, begin_row};
use field_elements::Field;
use field_rows::{Rows, transpose};
use pet_base::{NoMemory, Steps};
use std::alloc::Global;
use std::marker::Model;
use std::sync::ledger::Ledger;

/// Adjacent stripes of one length, in as many places as they have on end.
#[derive(Drop)]
pub(crate) struct StripeBlock<F: Rows> {
    /// How long each stripe is.
    size: usize,
    /// How many stripes there are.
    width: usize,
    /// Whether the stripes are longer than the number of points that were met.
    waits: bool,
    /// While it waits for points, row by row, so that stripe c is column c, and then stripe by stripe.
    places: Vec<F::Elem>,
}

impl<F: Rows> Model for StripeBlock<F> {
    ghost use Rattle.pet_interp.specs.Blocks.{HeldBlock, IsLaid, stripes_of};

    ghost Value = { HeldBlock F.Elem };

    ghost view = { λ b. record { size = b.size; waits = b.waits; stripes = stripes_of F.coding.ops.nought b.waits b.width b.size b.places.items } };

    ghost invariant = { λ b. IsLaid F.is_element b.width b.size b.places.items };
}

impl<F: Rows> StripeBlock<F> {
    /// So many stripes of this length, each of zeros, before any point was met.
    pub(crate) fn new(
        alloc: Global,
        f: &F,
        size: u16,
        width: usize,
    ) -> Result<StripeBlock<F>, NoMemory>
        requires narrow { width ≤ MAX_WIDTH }
        ensures width { IfOk result (λ b. length b.stripes ≡ width) }
        ensures size { IfOk result (λ b. b.size ≡ size) }
        ensures waits { IfOk result (λ b. b.waits ≡ nat_lt 0 size) }
        ensures each { IfOk result (λ b. All (λ s. (length s ≡ b.size) × All F.is_element s) b.stripes) }
    {
        let size = usize::from(size);
        let mut places = Vec::new(alloc);
        push_copies(&mut places, f.zero(), size * width)?;
        Ok(StripeBlock {
            size,
            width,
            waits: 0 < size,
            places,
        })
    }

    /// How many stripes there are.
    pub(crate) fn width(&self) -> usize
        ensures { result ≡ length self.now.stripes }
    {
        self.width
    }

    /// Puts the multiple of the product that each stripe lacks to its value into the stripe's place `met`, if the stripes
    /// are longer than `met`.
    pub(crate) fn begin<L: Ledger>(
        &mut self,
        f: &F,
        met: usize,
        x: &F::Factor,
        inverse: &F::Factor,
        values: &[u8],
        steps: &mut Steps<L>,
    )
        requires waits { self.old.waits ≡ nat_lt met self.old.size }
        requires point { F.is_element (F.element_of x.now) }
        requires inverse { F.is_element (F.element_of inverse.now) }
        requires width { length values.now ≡ length self.old.stripes * F.coding.width }
        ensures size { self.new.size ≡ self.old.size }
        ensures waits { self.new.waits ≡ self.old.waits }
        ensures each { All (λ s. (length s ≡ self.new.size) × All F.is_element s) self.new.stripes }
        ensures stripes { self.new.stripes ≡ begun_all F.coding.ops met (F.element_of x.now) (F.element_of inverse.now)
            self.old.stripes (words F.coding.spelt F.coding.width (length self.old.stripes) values.now) }
        ensures cost { steps.new ≡ steps.old + longer_than met (map length self.old.stripes) * (met + 1) }
    {
        if met < self.size {
            begin_row(
                f,
                &mut self.places,
                self.size,
                self.width,
                met,
                x,
                inverse,
                values,
                steps,
            );
        }
    }

    /// Whether its rows go by prepared factors.
    pub(crate) fn is_wide(&self, f: &F) -> bool {
        !f.is_narrow(self.width)
    }

    /// Adds to the places from `from` on the multiples by these elements, if the stripes are longer than `met`.
    pub(crate) fn add_multiples<L: Ledger>(
        &mut self,
        f: &F,
        met: usize,
        from: usize,
        by: &[F::Elem],
        factors: Option<&[F::Factor]>,
        steps: &mut Steps<L>,
    )
        requires waits { self.old.waits ≡ nat_lt met self.old.size }
        requires room { from + length by.now ≤ met }
        requires by { All F.is_element by.now }
        requires factors { IfSome factors (λ them. map F.element_of them.now ≡ by.now) }
        ensures size { self.new.size ≡ self.old.size }
        ensures waits { self.new.waits ≡ self.old.waits }
        ensures each { All (λ s. (length s ≡ self.new.size) × All F.is_element s) self.new.stripes }
        ensures stripes { self.new.stripes ≡ map (grown F.coding.ops met from by.now) self.old.stripes }
        ensures cost { steps.new ≡ steps.old + longer_than met (map length self.old.stripes) * length by.now }
    {
        if met < self.size {
            add_rows(
                f,
                &mut self.places,
                self.size,
                self.width,
                met,
                from,
                by,
                factors,
                steps,
            );
        }
    }

    /// Writes the stripes one after another, if they are as long as the number of points that were met.
    pub(crate) fn turn_back(&mut self, met: usize, spare: &mut [F::Elem])
        requires some { 0 < met }
        requires waits { self.old.waits ≡ nat_lt (met - 1) self.old.size }
        requires room { self.old.size * length self.old.stripes ≤ length spare.old }
        ensures size { self.new.size ≡ self.old.size }
        ensures waits { self.new.waits ≡ nat_lt met self.old.size }
        ensures stripes { self.new.stripes ≡ self.old.stripes }
    {
        if self.size == met {
            self.waits = false;
            turn_rows(&mut self.places, self.size, self.width, spare);
        }
    }

    /// A stripe of a block that waits for no point.
    pub(crate) fn stripe(&self, i: usize) -> &[F::Elem]
        requires known { self.now.waits ≡ false }
        requires stripe { i < length self.now.stripes }
        ensures { result.now ≡ slice_index_or self.now.stripes i [] }
    {
        let start = i * self.size;
        &self.places[start..start + self.size]
    }
}

/// Writes the columns of a block one after another.
fn turn_rows<E: Copy>(rows: &mut [E], count: usize, width: usize, spare: &mut [E])
    requires whole { length rows.old ≡ count * width }
    requires room { count * width ≤ length spare.old }
    ensures { (d : E) (c j : ℕ) → c < width → j < count → slice_index_or rows.new (c * count + j) d ≡ slice_index_or rows.old (j * width + c) d }
{
    let spare = &mut spare[..count * width];
    spare.copy_from_slice(rows);
    transpose(spare, width, count, rows);
}
