//! The command `merge`: it reads two stores of one session, and writes the store of all packets
//! that the one or the other has.
//!
//! What it leaves at each of its ends stands in `specs/Merges.antt`: the first store is read and
//! judged, then the second, then both together, and each refusal is exactly the first. Nothing is
//! printed: the end carries the number of packets. The first failure of a file ends it.
//! `specs/MergesSession.antt` says that stores of one session are always merged: OUT is then the
//! store of the session's packets that stand in the one or the other.
#![tactic(auto)]

mod command;
mod files;

pub use command::{MergeEnd, merge};
