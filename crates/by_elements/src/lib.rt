//! Any field as one that the encoder and the receiver take: rows and values by its elements, one after the other.
//!
//! A field needs `impl Field` alone. The tables and vectors of the fields of this repository are faster, and give the same.
#![tactic(auto)]

mod by_elements;

pub use by_elements::ByElements;
