//! The script of `replay`: lines, each an event of a session.
//!
//! `read_script` reads exactly the scripts of a session of so many groups and packets that `specs/Script.antt` defines, and tells
//! of every other text its first line that is no event.
#![tactic(auto)]

mod script;

pub use script::{ScriptFault, read_script};
