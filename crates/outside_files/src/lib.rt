//! Files for a command: reading a file whole or portion by portion, and what a command has read, written and printed.
//!
//! `specs/Inputs.antt` says what was read of a file, `specs/Outputs.antt` what was put to the output, `specs/Wrote.antt` which
//! files a command has written, `specs/Printed.antt` what it has printed, and `specs/Uses.antt` which files a failure may blame.
//! `read_file` reads a file to its end, or one byte past a limit, `Portions` takes the portions of the input so far one after another,
//! and `put_file` writes a file whole; each fails only where the place had a fault in that call. The laws for callers stand in
//! `specs/laws/`.
#![tactic(auto)]

mod input;
mod output;
mod portions;

pub use input::read_file;
pub use output::put_file;
pub use portions::{MAX_PORTION, Portions, portion_room};
