//! Tests over the public calls of `layer_split`, `stream_groups`, `stream_session`, `session_source` and `text_plan`, as a caller sees them.
//!
//! They stand apart because the gate proves a crate with tests twice, once alone and once with them: here the second time is
//! the tests' own. Layers they share with `test_stripes`, pieces and priorities with `test_streams`. No program uses this
//! crate.
#![tactic(auto)]

mod runs;

pub use runs::run;

#[cfg(test)]
mod byte_tests;
#[cfg(test)]
mod cutter_tests;
#[cfg(test)]
mod mark_tests;
#[cfg(test)]
mod session_tests;
#[cfg(test)]
mod source_tests;
#[cfg(test)]
mod split_tests;
#[cfg(test)]
mod stream_fixtures;
#[cfg(test)]
mod text_tests;
#[cfg(test)]
mod whole_tests;
