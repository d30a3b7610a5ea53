//! Numbers in decimal digits, as they stand in texts that commands read.
//!
//! `read_number` reads one, up to a greatest: `specs/Digits.antt` says which digits and which number. The law for callers stands in
//! `specs/laws/`: what is printed of a number reads back as the number.
#![tactic(auto)]

mod reading;

pub use reading::read_number;
