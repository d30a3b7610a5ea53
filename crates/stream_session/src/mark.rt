//! The mark of a group, by which two readings of a stream are compared.
ghost use Rattle.std.specs.Prelude.{◌≡◌};
ghost use Rattle.stream_session.specs.Marks.{mark_of, no_mark};

use crate::pass::first_eight;
use sha2::{Digest, Sha256};

/// The length of a group in the stream, and the first 8 bytes of its SHA-256 digest (FIPS 180-4). A group that a reading
/// did not find has the length 0 and eight zero bytes.
#[derive(Clone, Copy, Debug, PartialEq, Eq)]
pub struct GroupMark {
    /// In bytes.
    pub length: u32,
    pub digest: [u8; 8],
}

impl GroupMark {
    /// The mark of a group of these bytes. Its length is `u32::MAX` where they are more.
    pub fn of(bytes: &[u8]) -> GroupMark
        ensures { result ≡ mark_of bytes.now }
    {
        GroupMark {
            length: bytes.len().min(u32::MAX as usize) as u32,
            digest: first_eight(Sha256::digest(bytes)),
        }
    }

    /// The mark of a group that was not found.
    pub fn none() -> GroupMark
        ensures { result ≡ no_mark }
    {
        GroupMark {
            length: 0,
            digest: [0; 8],
        }
    }
}
