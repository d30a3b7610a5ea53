//! One more point for the rows of a block.
ghost use Rattle.std.specs.Prelude.{◌≡◌, ℕ, ◌+◌, ◌*◌, ◌<◌, ◌≤◌, length, map, All, IfSome, slice_index_or};
ghost use Rattle.field_rows.specs.declared.blocks.TheConstants.{MAX_WIDTH};
ghost use Rattle.pet_poly.specs.Rows.{words};
ghost use Rattle.field_rows.specs.Columns.{column};
ghost use Rattle.pet_interp.specs.inside.Lifted.{begun, grown};

use field_elements::Field;
use field_rows::{Rows, add_each};
use pet_base::Steps;
use std::sync::ledger::Ledger;

/// Writes into row `met` the multiple of the product that each column lacks to its value at x; `inverse` is that of the
/// product's value there.
pub(crate) fn begin_row<F: Rows, L: Ledger>(
    f: &F,
    rows: &mut [F::Elem],
    count: usize,
    width: usize,
    met: usize,
    x: &F::Factor,
    inverse: &F::Factor,
    values: &[u8],
    steps: &mut Steps<L>,
)
    requires narrow { width ≤ MAX_WIDTH }
    requires whole { length rows.old ≡ count * width }
    requires longer { met < count }
    requires elements { All F.is_element rows.old }
    requires point { F.is_element (F.element_of x.now) }
    requires inverse { F.is_element (F.element_of inverse.now) }
    requires values { length values.now ≡ width * F.coding.width }
    ensures columns { (c : ℕ) → c < width →
        column F.coding.ops.nought width count c rows.new
        ≡ begun F.coding.ops met (F.element_of x.now) (F.element_of inverse.now)
        (column F.coding.ops.nought width count c rows.old)
        (slice_index_or (words F.coding.spelt F.coding.width width values.now) c F.coding.ops.nought) }
    ensures elements { All F.is_element rows.new }
    ensures cost { steps.new ≡ steps.old + width * (met + 1) }
{
    let (low, rest) = rows.split_at_mut(met * width);
    let row = &mut rest[..width];
    f.values(low, met, x, row, steps);
    subtract(f, values, row);
    f.scale(inverse, row, steps);
}

/// What is missing to each value.
fn subtract<F: Field>(f: &F, values: &[u8], row: &mut [F::Elem])
    requires values { length values.now ≡ length row.old * F.coding.width }
    requires elements { All F.is_element row.old }
    ensures differences { (c : ℕ) → c < length row.old →
        slice_index_or row.new c F.coding.ops.nought
        ≡ F.coding.ops.minus (slice_index_or (words F.coding.spelt F.coding.width (length row.old) values.now) c F.coding.ops.nought)
        (slice_index_or row.old c F.coding.ops.nought) }
    ensures elements { All F.is_element row.new }
{
    let mut at = 0;
    for c in 0..row.len() {
        let end = at + F::WIDTH;
        row[c] = f.sub(f.read(&values[at..end]), row[c]);
        at = end;
    }
}

/// Adds to the rows from `from` on the multiples of row `met` by these factors, a row by each.
pub(crate) fn add_rows<F: Rows, L: Ledger>(
    f: &F,
    rows: &mut [F::Elem],
    count: usize,
    width: usize,
    met: usize,
    from: usize,
    by: &[F::Elem],
    factors: Option<&[F::Factor]>,
    steps: &mut Steps<L>,
)
    requires narrow { width ≤ MAX_WIDTH }
    requires whole { length rows.old ≡ count * width }
    requires longer { met < count }
    requires room { from + length by.now ≤ met }
    requires elements { All F.is_element rows.old }
    requires by { All F.is_element by.now }
    requires factors { IfSome factors (λ them. map F.element_of them.now ≡ by.now) }
    ensures columns { (c : ℕ) → c < width →
        column F.coding.ops.nought width count c rows.new
        ≡ grown F.coding.ops met from by.now
        (column F.coding.ops.nought width count c rows.old) }
    ensures elements { All F.is_element rows.new }
    ensures cost { steps.new ≡ steps.old + width * length by.now }
{
    let (low, rest) = rows.split_at_mut(met * width);
    add_products(
        f,
        by,
        factors,
        &rest[..width],
        &mut low[from * width..],
        steps,
    );
}

/// Adds to row j of `rows` the multiple of `row` by element j of `by`; later rows stay. A row that is not narrow goes by factors,
/// where these are prepared.
fn add_products<F: Rows, L: Ledger>(
    f: &F,
    by: &[F::Elem],
    factors: Option<&[F::Factor]>,
    row: &[F::Elem],
    rows: &mut [F::Elem],
    steps: &mut Steps<L>,
)
    requires narrow { length row.now ≤ MAX_WIDTH }
    requires room { length by.now * length row.now ≤ length rows.old }
    requires by { All F.is_element by.now }
    requires factors { IfSome factors (λ them. map F.element_of them.now ≡ by.now) }
    requires row { All F.is_element row.now }
    requires elements { All F.is_element rows.old }
    ensures sums { (j c : ℕ) → j < length by.now → c < length row.now →
        slice_index_or rows.new (j * length row.now + c) F.coding.ops.nought
        ≡ F.coding.ops.plus (slice_index_or rows.old (j * length row.now + c) F.coding.ops.nought)
        (F.coding.ops.times (slice_index_or by.now j F.coding.ops.nought) (slice_index_or row.now c F.coding.ops.nought)) }
    ensures others { (i : ℕ) → length by.now * length row.now ≤ i
        → slice_index_or rows.new i F.coding.ops.nought ≡ slice_index_or rows.old i F.coding.ops.nought }
    ensures elements { All F.is_element rows.new }
    ensures cost { steps.new ≡ steps.old + length by.now * length row.now }
{
    match factors {
        Some(factors) if !f.is_narrow(row.len()) => f.add_products(factors, row, rows, steps),
        _ => add_each(f, by, row, rows, steps),
    }
}
