//! Texts cut into lines and words.
//!
//! `cut` parts bytes at the first that is a mark, and `first_line` takes the first line of some: `specs/Cuts.antt` says which
//! parts and which lines a text has. The laws for callers stand in `specs/laws/`. Neither takes memory.
#![tactic(auto)]

mod cutting;

pub use cutting::{cut, first_line};
