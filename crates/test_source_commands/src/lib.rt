//! Tests over the public calls of the commands that read a stream and a priority file: `command_plan` and `command_send`.
//!
//! They stand apart because the gate proves a crate with tests twice, once alone and once with them: here the second time is
//! the tests' own. No program uses this crate.
#![tactic(auto)]

mod marks;

pub use marks::{
    CHANGED_MARK, EXAMPLE_MARK, FIRST_MARK, NO_MARK, SECOND_MARK, THIRD_MARK, changed_at,
};

#[cfg(test)]
mod cases;
#[cfg(test)]
mod plan_tests;
#[cfg(test)]
mod send_link_tests;
#[cfg(test)]
mod send_tests;
#[cfg(test)]
mod untold_place;
