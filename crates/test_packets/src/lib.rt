//! Tests over the public calls of `packet_frame`, `packet_set`, `pet_encode`, `packet_sending`, `packet_verdicts` and
//! `pet_receive`, as a caller sees them.
//!
//! They stand apart because the gate proves a crate with tests twice, once alone and once with them: here the second time is
//! the tests' own. No program uses this crate.
#![tactic(auto)]

mod group_fixtures;

pub use group_fixtures::{LAYERS, MESSAGE, header_of};

#[cfg(test)]
mod byte_frame_tests;
#[cfg(test)]
mod encode_tests;
#[cfg(test)]
mod frame_tests;
#[cfg(test)]
mod receive_fixtures;
#[cfg(test)]
mod receive_tests;
#[cfg(test)]
mod send_tests;
#[cfg(test)]
mod set_tests;
#[cfg(test)]
mod union_tests;
