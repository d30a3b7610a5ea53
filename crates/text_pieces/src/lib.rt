//! The pieces of a printed line: texts, numbers in decimal digits, and the number of a session in hexadecimal digits, each appended
//! to a line of at most 64 bytes.
//!
//! Each call appends exactly its piece, the digits of `decimal` or of `hex_text` (`text_plan`), for which there must be room, and
//! takes no memory; `number_line` leaves a whole line of words and a number.
#![tactic(auto)]

mod append;

pub use append::{
    append_byte, append_count, append_number, append_session, append_text, number_line,
};
