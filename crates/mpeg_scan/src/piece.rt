//! A piece of a stream.
use pet_base::Kind;

/// A part of a stream, from one opener to the next or to the end. The first piece also has the bytes before its opener.
#[derive(Clone, Copy, Debug, PartialEq, Eq)]
pub struct Piece {
    /// What the piece holds, by its opener's code and a picture's type.
    pub kind: Kind,
    /// The code byte of its opener: 00, B3, B7 or B8.
    pub code: u8,
    /// The byte of the stream at which it begins.
    pub at: u64,
    /// Its number of bytes, at least 1.
    pub len: u64,
}
