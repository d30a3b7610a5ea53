//! The command `replay`: what the receivers of a session are shown by the events of a script, and what they keep then.
//!
//! What it leaves at each of its ends stands in `specs/Replays.antt`, and when it is done in `specs/Replayed.antt`;
//! `specs/ReplayText.antt` has the text by plain sets of pairs. Files are read and then judged, one by one: the priority
//! file, the stream, the script, which is read whole before the first event. No file changes, and nothing is printed: the
//! text is carried by the end. The first failure of a file ends it (`specs/Ends.antt` says which ends tell of one).
#![tactic(auto)]

mod command;
mod encoders;
mod lines;
mod playing;
mod script;

pub use command::{ReplayEnd, replay};
