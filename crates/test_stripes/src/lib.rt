//! Tests of tables, plans and certificates: values from outside.
//!
//! They run the public calls of `stripe_plan` and `plan_cert`, as a caller sees them, a module a crate. They stand apart because
//! the gate proves a crate that has tests twice, once alone and once whole with its tests: here the second time is the tests'
//! own. `fixtures` is what they share, with `test_sessions` too. No program uses this crate.
#![tactic(auto)]

mod fixtures;

pub use fixtures::{is_example, is_table, layer, layers_of};

#[cfg(test)]
mod byte_tests;
#[cfg(test)]
mod cert_tests;
#[cfg(test)]
mod plan_tests;
#[cfg(test)]
mod sizes;
