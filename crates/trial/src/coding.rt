//! A group encoded and decoded, by blocks and stripe by stripe.
ghost use Rattle.std.specs.Prelude.{◌<◌, All};

use crate::calls::{add, inverse_at, prepared, scale, values};
use field_elements::Field;
use field_rows::Rows;
use field_vectors::Products;
use pet_base::Steps;
use pet_field::Gf16Tables;
use pet_poly::eval;
use std::alloc::{AllocError, Global};
use std::sync::ledger::Ledger;

/// How the products of a packet are made.
#[derive(Clone, Copy, Drop)]
pub enum Way {
    /// By rows, of blocks of so many stripes.
    Blocks(usize),
    /// One by one, stripe after stripe.
    Singly,
}

impl Way {
    /// How many stripes a block has; one that has a single stripe is that stripe.
    pub fn width(self) -> usize {
        match self {
            Way::Blocks(width) => width,
            Way::Singly => 1,
        }
    }
}

/// A packet of the group: the value at x of each stripe, where the stripes stand in blocks.
pub fn packet<L: Ledger>(
    tables: &Gf16Tables,
    way: Way,
    laid: &[u16],
    length: usize,
    x: u16,
    into: &mut [u16],
    steps: &mut Steps<L>,
) {
    match way {
        Way::Blocks(width) => by_blocks(tables, laid, length, width, x, into, steps),
        Way::Singly => singly(tables, laid, length, x, into, steps),
    }
}

/// The values of all blocks of one width.
#[inline(never)]
fn by_blocks<L: Ledger>(
    tables: &Gf16Tables,
    laid: &[u16],
    length: usize,
    width: usize,
    x: u16,
    into: &mut [u16],
    steps: &mut Steps<L>,
) {
    let factor = tables.prepare(x);
    let size = length.saturating_mul(width);
    if size > 0 {
        let blocks = laid.chunks_exact(size);
        for (rows, part) in blocks.zip(into.chunks_exact_mut(width)) {
            values(tables, rows, length, &factor, part, steps);
        }
    }
}

/// The values of all stripes, which stand on end.
#[inline(never)]
fn singly<L: Ledger>(
    tables: &Gf16Tables,
    row: &[u16],
    length: usize,
    x: u16,
    into: &mut [u16],
    steps: &mut Steps<L>,
) {
    if length > 0 {
        for (stripe, place) in row.chunks_exact(length).zip(into.iter_mut()) {
            *place = eval(tables, stripe, x, steps);
        }
    }
}

/// What a decoder knows after some packets, by blocks of one width.
#[derive(Drop)]
pub struct Known {
    /// The places of the stripes.
    pub places: Vec<u16>,
    /// The lower coefficients of the product over the points that were met.
    pub product: Vec<u16>,
    /// One row of a block.
    pub row: Vec<u16>,
}

/// One more packet.
#[inline(never)]
pub fn absorb<L: Ledger>(
    alloc: Global,
    tables: &Gf16Tables,
    known: &mut Known,
    length: usize,
    x: u16,
    payload: &[u16],
    steps: &mut Steps<L>,
) -> Result<(), AllocError> {
    if let Some(inverse) = inverse_at(tables, &known.product, x, steps) {
        let factors = prepared(alloc, tables, &known.product)?;
        lift_all(tables, known, length, x, inverse, &factors, payload, steps);
        times_linear(tables, &mut known.product, x, steps)?;
    }
    Ok(())
}

/// One more value for each stripe of all blocks.
fn lift_all<L: Ledger>(
    tables: &Gf16Tables,
    known: &mut Known,
    length: usize,
    x: u16,
    inverse: u16,
    factors: &[Products],
    payload: &[u16],
    steps: &mut Steps<L>,
)
    requires factors { All (λ p. p.factor < 65536) factors.now }
{
    let point = tables.prepare(x);
    let by = tables.prepare(inverse);
    let width = known.row.len();
    let size = length.saturating_mul(width);
    if size > 0 {
        let blocks = known.places.chunks_exact_mut(size);
        for (rows, part) in blocks.zip(payload.chunks_exact(width)) {
            lift(
                tables,
                rows,
                part,
                factors,
                &point,
                &by,
                &mut known.row,
                steps,
            );
        }
    }
}

/// One more value for each stripe of a block.
fn lift<L: Ledger>(
    tables: &Gf16Tables,
    rows: &mut [u16],
    payload: &[u16],
    factors: &[Products],
    x: &Products,
    inverse: &Products,
    row: &mut [u16],
    steps: &mut Steps<L>,
)
    requires factors { All (λ p. p.factor < 65536) factors.now }
{
    let met = factors.len();
    let width = row.len();
    if met <= 1_000 && width <= 32 {
        let size = met * width;
        if size <= rows.len() && rows.len() - size >= width {
            let (low, rest) = rows.split_at_mut(size);
            values(tables, low, met, x, row, steps);
            subtract(tables, payload, row);
            scale(tables, inverse, row, steps);
            add(tables, factors, row, low, steps);
            rest[..width].copy_from_slice(row);
        }
    }
}

/// What each value lacks.
fn subtract(tables: &Gf16Tables, values: &[u16], row: &mut [u16]) {
    for (place, value) in row.iter_mut().zip(values) {
        *place = tables.sub(*value, *place);
    }
}

/// Multiplies the monic polynomial by X - x.
fn times_linear<L: Ledger>(
    tables: &Gf16Tables,
    product: &mut Vec<u16>,
    x: u16,
    steps: &mut Steps<L>,
) -> Result<(), AllocError> {
    let mut before = tables.zero();
    for i in 0..product.len() {
        let here = product[i];
        product[i] = less_product(tables, before, x, here, steps);
        before = here;
    }
    product.push(difference(tables, before, x))?;
    Ok(())
}

/// What is left when a product is taken away.
fn less_product<L: Ledger>(
    tables: &Gf16Tables,
    before: u16,
    x: u16,
    here: u16,
    steps: &mut Steps<L>,
) -> u16 {
    let product = tables.mul(x, here, steps);
    difference(tables, before, product)
}

/// The difference of two elements.
fn difference(tables: &Gf16Tables, a: u16, b: u16) -> u16 {
    tables.sub(a, b)
}
