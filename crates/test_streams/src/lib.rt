//! Tests of the scanner, of system streams, of the priority file and of the stream that is made of a number: values from
//! outside.
//!
//! They run the public calls of `mpeg_scan`, `mpeg_system`, `priority_file` and `stream_sample`, as a caller sees them. They
//! stand apart because the gate proves a crate that has tests twice, once alone and once whole with its tests: here the second
//! time is the tests' own. `fixtures` is what they share, with `test_sessions` too. No program uses this crate.
#![tactic(auto)]

mod fixtures;

pub use fixtures::{EXAMPLE_PIECES, TWO_GROUPS, piece, pieces_on_end, priority_of, three_layers};

#[cfg(test)]
mod loop_tests;
#[cfg(test)]
mod priority_tests;
#[cfg(test)]
mod sample_tests;
#[cfg(test)]
mod scan_tests;
#[cfg(test)]
mod system_fixtures;
#[cfg(test)]
mod system_tests;
