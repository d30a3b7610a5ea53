//! Why a stream is refused.

/// The refusal of a stream: of those that hold the one that is decided first, `TooLong` before another of the same byte.
#[derive(Clone, Copy, Debug, PartialEq, Eq)]
pub enum Scan {
    /// The stream has no byte.
    Empty,
    /// The stream does not begin, behind so many zero bytes, with a sequence header or a group of pictures.
    NoHead(u64),
    /// A start code of a system stream, code B9 to FF, stands at this byte.
    System(u64),
    /// The picture whose start code stands at this byte has this type, which is forbidden or reserved.
    PictureType(u64, u8),
    /// The stream ends before the type of the picture whose start code stands at this byte.
    ShortPicture(u64),
    /// The stream has more than 268,435,456 bytes.
    TooLong,
    /// No memory was found for a piece. Nothing is said of the stream.
    NoMemory,
}
