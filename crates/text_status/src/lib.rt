//! The statuses that the program ends with: their numbers, and the lines that tell of them.
//!
//! `Status::code` is the defined number, and `fault_line`, which takes no memory, leaves exactly the defined line.
#![tactic(auto)]

mod status;

pub use status::{PlanKind, Status, fault_line};
