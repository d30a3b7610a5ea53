//! Why pieces are not split.

/// Why pieces are not split: the first group that is too long, or else that there are too many.
#[derive(Clone, Copy, Debug, PartialEq, Eq)]
pub enum SplitFault {
    /// More than 65,535 groups, of which the first 65,535 are not too long.
    TooManyGroups,
    /// The layers of this group, counted from 0, have more than 4,194,304 bytes, run table included.
    GroupTooLong(u32),
    /// No memory was found. Nothing is said of the pieces.
    NoMemory,
}
