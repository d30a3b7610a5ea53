//! Tests over the public calls of `gf8`, `byte_frame` and `pet_byte`, as a caller sees them.
//!
//! They stand apart because the gate proves a crate with tests twice, once alone and once with them: here the second time is
//! the tests' own. No program uses this crate.
#![tactic(auto)]

mod group_fixtures;

pub use group_fixtures::{MESSAGE, table_of};

#[cfg(test)]
mod breceive_tests;
#[cfg(test)]
mod field_tests;
#[cfg(test)]
mod random_tests;
#[cfg(test)]
mod session_tests;
