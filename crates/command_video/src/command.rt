//! The command `video`, and how it ends.
ghost use Rattle.std.specs.Prelude.{◌≡◌};
ghost use Rattle.pet_base.specs.Seen.{Seen, PlaceStops};
ghost use Rattle.command_video.specs.Ends.{has_failed};
ghost use Rattle.command_video.specs.Videos.{Videos};
ghost use Rattle.command_video.specs.VideosSession.{CompletesVideo};

use crate::files::write_video;
use pet_base::{Place, Steps};
use std::alloc::Global;
use std::sync::ledger::Ledger;
use store_text::StoreKind;

/// How `video` ended.
#[derive(Clone, Copy, Debug, PartialEq, Eq)]
pub enum VideoEnd {
    /// OUT has the video of the store, which has so many bytes.
    Done(u64),
    /// No memory was found.
    NoMemory,
    /// A file could not be read or written.
    PlaceFault,
    /// The store is refused, at this place.
    BadStore(u64, StoreKind),
    /// Layer 0 of this group, the first such, is shown and has no run table that fits; OUT has the video of the groups before it.
    BadTable(u32),
}

/// Reads and judges the store STORE, makes OUT, and writes the video of each group of the session to it, in order: the runs of
/// the group's leading layers that are all shown, as the stream has them, and nothing where its layer 0 is not shown. The first
/// failure of a file ends it.
pub fn video<P: Place, L: Ledger>(
    alloc: Global,
    store: &str,
    out: &str,
    place: &mut P,
    steps: &mut Steps<L>,
) -> VideoEnd
    ensures videos { Videos store.now out.now (P.seen place.old) (P.seen place.new) result }
    ensures completes { CompletesVideo store.now out.now (P.seen place.old) (P.seen place.new)
        result }
    ensures once { PlaceStops (has_failed result) (P.seen place.old) (P.seen place.new) }
{
    match write_video(alloc, store, out, place, steps) {
        Ok(bytes) => VideoEnd::Done(bytes),
        Err(end) => end,
    }
}
