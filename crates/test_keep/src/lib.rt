//! Tests over `keep` and `Keeper` of `pet_keep`, on disks in memory that stop, fail and are torn.
//!
//! They stand apart because the gate proves a crate with tests twice, once alone and once with them: here the second time is
//! the tests' own. No program uses this crate.
#![tactic(auto)]

mod crash;

pub use crash::{Draws, torn};

#[cfg(test)]
mod fixtures;
#[cfg(test)]
mod image_tests;
#[cfg(test)]
mod keeping;
#[cfg(test)]
mod object_tests;
#[cfg(test)]
mod order_tests;
#[cfg(test)]
mod quiet_tests;
#[cfg(test)]
mod refusal_tests;
#[cfg(test)]
mod row_tests;
#[cfg(test)]
mod stop_tests;
