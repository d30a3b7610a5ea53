//! Tests over the public calls of `pet_world`, `text_script`, `command_replay` and `command_sample`, as a caller sees them.
//!
//! They stand apart because the gate proves a crate with tests twice, once alone and once with them: here the second time is
//! the tests' own. No program uses this crate.
#![tactic(auto)]

mod world_fixtures;

pub use world_fixtures::{MESSAGE, group_encoder, world_of_one, world_of_two};

#[cfg(test)]
mod replay_tests;
#[cfg(test)]
mod sample_command_tests;
#[cfg(test)]
mod sample_tests;
#[cfg(test)]
mod script_rows;
#[cfg(test)]
mod script_tests;
#[cfg(test)]
mod world_tests;
