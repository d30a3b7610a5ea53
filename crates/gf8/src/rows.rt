//! The rows of the field of 256 elements: by tables on vectors, where the calls of one product stay with the tables of powers, and
//! without tables as of any field.

use crate::plain::Gf8Plain;
use crate::products::ByteProducts;
use crate::tables::Gf8Tables;
use field_rows::Rows;
use field_vectors::{add_multiples, column_values, count_steps, scale_row};
use pet_base::Steps;
use std::sync::ledger::Ledger;

impl Rows for Gf8Plain {
    type Factor = u8;

    ghost element_of = { λ a. a };

    fn prepare(&self, x: u8) -> u8 {
        x
    }

    fn element(&self, factor: &u8) -> u8 {
        *factor
    }
}

impl Rows for Gf8Tables {
    type Factor = ByteProducts;

    ghost element_of = { λ p. p.factor };

    fn prepare(&self, x: u8) -> ByteProducts {
        ByteProducts::new(x)
    }

    fn element(&self, factor: &ByteProducts) -> u8 {
        factor.factor
    }

    fn values<L: Ledger>(
        &self,
        rows: &[u8],
        count: usize,
        x: &ByteProducts,
        into: &mut [u8],
        steps: &mut Steps<L>,
    ) {
        count_steps(steps, rows.len());
        column_values(rows, count, x, into);
    }

    fn scale<L: Ledger>(&self, by: &ByteProducts, row: &mut [u8], steps: &mut Steps<L>) {
        count_steps(steps, row.len());
        scale_row(by, row);
    }

    fn add_products<L: Ledger>(
        &self,
        factors: &[ByteProducts],
        row: &[u8],
        rows: &mut [u8],
        steps: &mut Steps<L>,
    ) {
        count_steps(steps, factors.len() * row.len());
        add_multiples(factors, row, rows);
    }
}
