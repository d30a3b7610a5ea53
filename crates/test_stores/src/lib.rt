//! Tests over the calls that make, read and join stores, and over the commands on packets, as a caller sees them: transcripts.
//!
//! They stand apart because the gate proves a crate with tests twice, once alone and once with them: here the second time is
//! the tests' own. No program uses this crate.
#![tactic(auto)]

#[cfg(test)]
mod calls;
#[cfg(test)]
mod commands;
#[cfg(test)]
mod hearing;
#[cfg(test)]
mod merge_tests;
#[cfg(test)]
mod objects;
#[cfg(test)]
mod old_stores_tests;
#[cfg(test)]
mod receive_tests;
#[cfg(test)]
mod repair_tests;
#[cfg(test)]
mod shelf;
#[cfg(test)]
mod splitting;
#[cfg(test)]
mod stores_tests;
#[cfg(test)]
mod video_tests;
