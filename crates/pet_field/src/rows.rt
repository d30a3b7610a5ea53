//! The field of 65,536 elements by tables, on vectors: the calls of one product stay with the tables of powers.
ghost use Rattle.std.specs.Prelude.{◌≡◌, ℕ, ◌+◌, ◌*◌, ◌<◌, ◌≤◌, length, slice_index, bit_xor};
ghost use Rattle.field_elements.specs.Gf16.{gf16};

use crate::tables::Gf16Tables;
use field_rows::{Rows, each_column};
use field_vectors::{Products, add_multiples, column_values, count_steps, scale_row};
use pet_base::Steps;
use std::sync::ledger::Ledger;

/// Below so many columns the products one by one are faster than a row of vectors, of which most would be empty.
const NARROW: usize = 6;

impl Rows for Gf16Tables {
    type Factor = Products;

    ghost element_of = { λ p. p.factor };

    fn prepare(&self, x: u16) -> Products {
        Products::new(x)
    }

    fn element(&self, factor: &Products) -> u16 {
        factor.factor
    }

    fn is_narrow(&self, width: usize) -> bool {
        width < NARROW
    }

    fn values<L: Ledger>(
        &self,
        rows: &[u16],
        count: usize,
        x: &Products,
        into: &mut [u16],
        steps: &mut Steps<L>,
    ) {
        if self.is_narrow(into.len()) {
            each_column(self, rows, count, x.factor, into, steps);
        } else {
            count_steps(steps, rows.len());
            column_values(rows, count, x, into);
        }
    }

    fn scale<L: Ledger>(&self, by: &Products, row: &mut [u16], steps: &mut Steps<L>) {
        count_steps(steps, row.len());
        scale_row(by, row);
    }

    fn add_products<L: Ledger>(
        &self,
        factors: &[Products],
        row: &[u16],
        rows: &mut [u16],
        steps: &mut Steps<L>,
    ) {
        count_steps(steps, factors.len() * row.len());
        add_multiples(factors, row, rows);
    }
}
