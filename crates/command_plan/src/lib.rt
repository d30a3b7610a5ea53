//! The commands `plan` and `check`: the plan text of the session that a stream and a priority file
//! are, and whether the stripe lengths that a plan file lists are certificates of fewest stripes.
//!
//! What `plan` answers at each of its ends stands in `specs/Plans.antt`, and when it is done in
//! `specs/Planned.antt`; `specs/Checks.antt` and `specs/Checked.antt` say so of `check`. Files are
//! read and then judged, one by one: the priority file, the stream, the plan file. No file changes,
//! and nothing is printed: the text of `plan` and the number of `check` are carried by their ends.
//! The first failure of a file ends both (`specs/Ends.antt` says which ends tell of one).
#![tactic(auto)]

mod checking;
mod least;
mod planning;

pub use checking::{CheckEnd, check};
pub use planning::{PlanEnd, plan};
