//! Tests over the public calls of `pet_text` and `pet_tool`, as transcripts: words, statuses and lines, `run` on files and links in
//! memory, and what a run leaves behind each call of the outside that fails.
//!
//! They stand apart because the gate proves a crate with tests twice, once alone and once with them: here the second time is
//! the tests' own. No program uses this crate.
#![tactic(auto)]

#[cfg(test)]
mod byte_tests;
#[cfg(test)]
mod each;
#[cfg(test)]
mod failure_tests;
#[cfg(test)]
mod files;
#[cfg(test)]
mod input_tests;
#[cfg(test)]
mod line_tests;
#[cfg(test)]
mod packet_tests;
#[cfg(test)]
mod run;
#[cfg(test)]
mod run_tests;
#[cfg(test)]
mod sample_tests;
#[cfg(test)]
mod statuses;
#[cfg(test)]
mod stream_tests;
#[cfg(test)]
mod terminal;
#[cfg(test)]
mod texts;
#[cfg(test)]
mod word_tests;
