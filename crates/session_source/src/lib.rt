//! The reading of a stream and a priority file: the session that the two files are, or why they are none.
//!
//! `specs/Sources` says what two files of a place are, and each fault with its cause. `read_source` reads both files, and answers
//! the session that they are, or why they are none. `read_marked` reads as `read_source` does, and gives each group's mark too, by
//! which a later reading can be compared; `read_marked_in` does so in another format. `read_whole` reads as `read_source` does, for
//! a session of at most 67,108,864 bytes, and holds the stream.
#![tactic(auto)]

mod both;
mod marked;
mod source;
mod whole;

pub use marked::{MarkedSource, read_marked, read_marked_in};
pub use source::{Source, SourceFault, read_source};
pub use whole::{WholeSource, read_whole};
