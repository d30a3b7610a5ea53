//! The groups of a stream, each with its bytes, as the stream is read.
//!
//! `specs/` defines the groups of a stream with their bytes, and which of them had ended before the stream or its groups are
//! refused. `GroupCutter` gives exactly those, each once it has ended, of a stream that comes in portions of any size, and
//! holds one at a time. It refuses by the stream's refusal wherever that stands, and else by the fault of its groups.
#![tactic(auto)]

mod fault;
mod groups;

pub use fault::CutFault;
pub use groups::{Group, GroupCutter};
