//! Tests of the outside: the fakes in memory and the entries of a datagram file, files that are read for a command, and the
//! real ends.
//!
//! They run the public calls of `pet_base` by the fakes of `pet_base`, of `outside_files` and of `pet_ends`, as a caller
//! sees them, a module a crate (of `pet_ends` three: a real file and the output, datagrams over the loopback, and what is said of a failure). They stand
//! apart because the gate proves a crate that has tests twice, once alone and once whole with its tests: here the second time
//! is the tests' own. `room` is what several of them share; runs on the
//! outside, a place that tells nothing and objects that fail are for the tests of commands. No program uses this crate.
#![tactic(auto)]

mod buffers;
mod failing;
mod running;
mod untold_place;

pub use buffers::room;
pub use failing::{Object, is_front, objects_failing};
pub use running::{Runs, run_on};
pub use untold_place::UntoldPlace;

#[cfg(test)]
mod base_tests;
#[cfg(test)]
mod ends_tests;
#[cfg(test)]
mod files_tests;
#[cfg(test)]
mod heard;
#[cfg(test)]
mod link_tests;
#[cfg(test)]
mod notice_tests;
#[cfg(test)]
mod place_tests;
