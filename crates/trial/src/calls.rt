//! Calls on blocks whose shape is tested first: what does not fit is left out, and shows as another answer.
ghost use Rattle.std.specs.Prelude.{◌≡◌, ℕ, ◌*◌, ◌<◌, ◌≤◌, length, vec_len, All, IfOk};

use field_elements::Field;
use field_rows::{MAX_WIDTH, Rows};
use field_vectors::Products;
use pet_base::Steps;
use pet_field::Gf16Tables;
use pet_poly::eval_monic;
use std::alloc::{AllocError, Global};
use std::sync::ledger::Ledger;

/// The most rows of a block.
const MAX_ROWS: usize = 1_000;

/// Prepares each factor.
pub fn prepared(
    alloc: Global,
    tables: &Gf16Tables,
    factors: &[u16],
) -> Result<Vec<Products>, AllocError>
    ensures long { IfOk result (λ v. vec_len v ≡ length factors.now) }
    ensures factors { IfOk result (λ v. All (λ p. p.factor < 65536) v.items) }
{
    let mut all = Vec::new(alloc);
    for i in 0..factors.len() {
        all.push(tables.prepare(factors[i]))?;
    }
    Ok(all)
}

/// The values of all columns of a block.
pub fn values<L: Ledger>(
    tables: &Gf16Tables,
    rows: &[u16],
    count: usize,
    x: &Products,
    into: &mut [u16],
    steps: &mut Steps<L>,
) {
    let width = into.len();
    if count <= MAX_ROWS && width <= MAX_WIDTH && rows.len() == count * width {
        tables.values(rows, count, x, into, steps);
    }
}

/// A row, multiplied by a factor.
pub fn scale<L: Ledger>(tables: &Gf16Tables, by: &Products, row: &mut [u16], steps: &mut Steps<L>) {
    if row.len() <= MAX_WIDTH {
        tables.scale(by, row, steps);
    }
}

/// Multiples of a row, added to the rows of a block.
pub fn add<L: Ledger>(
    tables: &Gf16Tables,
    factors: &[Products],
    row: &[u16],
    rows: &mut [u16],
    steps: &mut Steps<L>,
)
    requires factors { All (λ p. p.factor < 65536) factors.now }
{
    let count = factors.len();
    let width = row.len();
    if count <= MAX_ROWS && width <= MAX_WIDTH && rows.len() == count * width {
        add_fitting(tables, factors, row, rows, steps);
    }
}

/// The same, where the shape is right.
fn add_fitting<L: Ledger>(
    tables: &Gf16Tables,
    factors: &[Products],
    row: &[u16],
    rows: &mut [u16],
    steps: &mut Steps<L>,
)
    requires factors { All (λ p. p.factor < 65536) factors.now }
    requires narrow { length row.now ≤ MAX_WIDTH }
    requires room { length factors.now * length row.now ≤ length rows.old }
{
    tables.add_products(factors, row, rows, steps);
}

/// The inverse of the value at a point of a monic polynomial, or nothing at a root.
pub fn inverse_at<L: Ledger>(
    tables: &Gf16Tables,
    low: &[u16],
    x: u16,
    steps: &mut Steps<L>,
) -> Option<u16> {
    let value = eval_monic(tables, low, x, steps);
    if value == tables.zero() {
        return None;
    }
    Some(tables.inv(value, steps))
}
