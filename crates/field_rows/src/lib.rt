//! Rows of field elements: many products by one factor at once.
//!
//! A block is up to `MAX_WIDTH` stripes of one length, side by side: its rows stand one after another, and stripe c is
//! column c of them (`specs/Columns.antt`, `specs/Blocks.antt`). So it takes the places that its stripes take on end.
//! `Rows` is a field that works on blocks: the values of all columns at a point, a row scaled, and a multiple of a row
//! added to each row of a block, by a factor of its own. A field has these calls by preparing a factor alone, as products
//! one after another, and `Gf16Plain` has them so. A field may have them faster, under the very same clauses (`pet_field`):
//! each counts exactly one step for each product.
//!
//! `push_stripe` puts stripes into blocks, `lay_out` writes a row of stripes into the columns of blocks, and `transpose`
//! does so for one block, and writes its columns on end again. `block_values` is what the encoder asks of blocks. All of
//! this holds over any lawful field. Only `push_stripe` takes memory.
#![tactic(auto)]

mod any_field;
mod blocks;
mod gf16_plain;
mod laid;
mod rows;

pub use any_field::{add_each, each_column, multiply_each};
pub use blocks::{Block, MAX_WIDTH, block_values, push_stripe};
pub use laid::{lay_out, transpose};
pub use rows::Rows;
