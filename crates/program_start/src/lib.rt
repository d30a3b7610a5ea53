//! What a program has before it does anything: its words, and its standard streams.
//!
//! `words` are the words after the program's name, and `hold_streams` holds the numbers of the standard streams that it was
//! started without. No contract speaks of what the machine gives.
#![tactic(auto)]

mod program_words;
mod standard_streams;

pub use program_words::{NoWords, words};
pub use standard_streams::{StandardStreams, hold_streams};
