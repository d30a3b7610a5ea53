//! The program's commands as one call: `run` reads the command words, runs the command that they
//! give, and prints the line of its end and that of its status, for all commands in one place.
//!
//! What a command does at each of its ends is said in the command's own crate.
//! `specs/Commands.antt` says, by the command, what a run does (`specs/Told.antt` what was then
//! printed, `specs/Runs.antt` that the first failure of a file or of the link ends it), and when
//! it is done; its case of `receive` is the headline: for every session, and every list of
//! datagrams whose frames with the session's number are packets of the session, from a file or by
//! a link, LAYERS has each shown layer's exact bytes once, numbered by the arrival that showed
//! it, STORE is the store of the session's packets that were met, the status is Done exactly
//! where every layer is shown, and the printed lines are the defined ones. The line and the
//! status of each end stand in the file of the command's kind below `specs/Commands`.
//! `start_words` is the program: it runs the words of the process over the files, the network and
//! the output of this machine.
#![tactic(auto)]

mod commands;
mod session_status;
mod starting;
mod top;

pub use commands::End;
pub use program_start::{NoWords, words};
pub use starting::{start, start_words};
pub use top::run;
