//! The session that a stream is under a priority: why there is none, its number, and its tables.
//!
//! `specs/` defines the tables of a stream's groups, the first cause that holds against a session, and the session's
//! number. `Pass` makes exactly those of a stream that comes in portions of any size, or says why there are none; it holds no bytes
//! of the stream, and one table a group. `MarkedPass` does so too, and keeps each group's mark. Both are a `StreamReader`, which
//! reads a stream portion by portion and answers of it in a format.
#![tactic(auto)]

mod fault;
mod group_tables;
mod mark;
mod marking;
mod needs;
mod pass;
mod planner;
mod reader;
mod total;

pub use fault::SessionFault;
pub use mark::GroupMark;
pub use marking::{MarkedPass, MarkedPlan};
pub use needs::is_table_of;
pub use pass::{Pass, SessionPlan, StreamFault};
pub use reader::StreamReader;
