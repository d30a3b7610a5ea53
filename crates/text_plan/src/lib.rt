//! The text of a plan: the lines that `plan` prints, and the plan file that `check` reads.
//!
//! `text_plan` appends exactly the text of a whole plan, and each call for a line exactly the line that `PlanLines`
//! defines, or leaves what it was to extend as it was. `read_plan` reads exactly the lists of stripe lengths of a plan
//! file. The line of `send` stands here, since it begins as that of a plan does: with the session number in hexadecimal
//! digits.
#![tactic(auto)]

mod lengths;
mod plan_file;
mod plan_lines;
mod whole_plan;

pub use lengths::lengths_line;
pub use plan_file::{PlanFault, Repeat, read_plan};
pub use plan_lines::{hexadecimal_digit, plan_group_line, plan_layer_line, plan_session_line};
pub use whole_plan::plan_text;
