//! What was done to a file in memory.

/// A call that succeeded and left a mark.
#[derive(Drop)]
pub enum Event {
    /// These bytes were written at a place.
    Wrote(usize, Vec<u8>),
    /// The file was cut to this length.
    Cut(usize),
    /// The file was synced.
    Synced,
}
