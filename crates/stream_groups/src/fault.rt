//! Why a stream is not cut into groups.
use layer_split::SplitFault;
use mpeg_scan::Scan;

/// Why a stream is not cut into groups: its own refusal, wherever in the stream that is decided, and else that of its
/// groups.
#[derive(Clone, Copy, Debug, PartialEq, Eq)]
pub enum CutFault {
    /// The stream is refused, as `Scan` says. `Scan::NoMemory` never stands here.
    Stream(Scan),
    /// It is accepted, and its groups are refused. `SplitFault::NoMemory` never stands here.
    Groups(SplitFault),
    /// No memory was found. Nothing is said of the stream.
    NoMemory,
}
