//! Rows of a field on vectors: many products by one factor at once.
//!
//! A factor is `Prepared` where it has its products with 32 elements at once. `Products` is one of the field of 65,536 elements: with
//! its products with each nibble at each of the four places of a word, 32 products take a few looks into tables of sixteen bytes.
//! `column_values`, `scale_row` and `add_multiples` do with the rows of a block what `Rows` of `field_rows` asks of a field, 32
//! columns at once; `multiply_row`, `add_multiple_row` and `butterfly_row` go along rows of any length. All stand over any prepared
//! factor. A step for each product is counted by `count_steps`. No call takes memory.
#![tactic(auto)]

mod count;
mod kernels;
mod lane;
mod lanes;
mod long_rows;
mod memory;
mod nibbles;
mod prepared;
mod products;

pub use count::count_steps;
pub use kernels::{add_multiples, column_values, scale_row};
pub use lane::Lane;
pub use lanes::{at_high, at_low, spread};
pub use long_rows::{add_multiple_row, butterfly_row, multiply_row};
pub use memory::{load, store, unload};
pub use nibbles::{NibbleProducts, nibble_products};
pub use prepared::Prepared;
pub use products::Products;
