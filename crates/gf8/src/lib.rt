//! The field of 256 elements, which the byte profile codes in.
//!
//! `Gf8Plain` is the binary field of degree 8 with the modulus x^8 + x^4 + x^3 + x^2 + 1, computed bit by bit; `Gf8Plain::meaning` says
//! so in public, by the relation that says what the field of 65,536 elements is. `Gf8Tables` is the same field: a product is one look
//! into a table of the powers of x, and on rows it works by vectors of 32 elements. `ByteProducts` is a factor with its products with
//! each nibble at both places of a byte, so that 32 products take two looks into tables of sixteen bytes. With the constants of its
//! subspaces it has the additive transform (`field_transform`), for up to 128 points at once. `mul` and `inv` count one step each, rows
//! one for each product, and no other call counts any. No call takes memory.
#![tactic(auto)]

mod plain;
mod products;
mod rows;
mod subspaces;
mod tables;

pub use plain::Gf8Plain;
pub use products::ByteProducts;
pub use tables::Gf8Tables;
