//! The start-code scanner: cuts an ISO/IEC 11172-2 video stream, which comes in portions of any size, into pieces.
//!
//! `specs/` defines on the whole stream where start codes stand, which refusal comes first, and the pieces. For every
//! cutting of a stream the calls of `Scanner::feed` and one `finish` append exactly the pieces of an accepted stream
//! and refuse any other by exactly its refusal. Where a portion is refused, what was appended are exactly the pieces that
//! had ended before the byte that decides it, which are a front of the stream's pieces; after that the scanner gives the
//! same refusal at every call and appends nothing. It keeps its last five bytes and the open piece, and no copy of the
//! stream; want of memory for a piece is the one free answer.
#![tactic(auto)]

mod codes;
mod piece;
mod refusal;
mod scanner;

pub use piece::Piece;
pub use refusal::Scan;
pub use scanner::Scanner;
