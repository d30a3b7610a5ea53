//! The command `merge`, and how it ends.
ghost use Rattle.std.specs.Prelude.{◌≡◌};
ghost use Rattle.pet_base.specs.Seen.{Seen, PlaceStops};
ghost use Rattle.command_merge.specs.Ends.{has_failed};
ghost use Rattle.command_merge.specs.Merges.{Merges};
ghost use Rattle.command_merge.specs.MergesSession.{CompletesMerge};

use crate::files::merge_files;
use pet_base::{Place, Steps};
use std::alloc::Global;
use std::sync::ledger::Ledger;
use store_text::StoreKind;

/// How `merge` ended.
#[derive(Clone, Copy, Debug, PartialEq, Eq)]
pub enum MergeEnd {
    /// OUT has the store of the union, which has so many packets.
    Done(u32),
    /// No memory was found.
    NoMemory,
    /// A file could not be read or written.
    PlaceFault,
    /// The first store is refused, at this place.
    BadFirst(u64, StoreKind),
    /// The second store is refused, at this place.
    BadSecond(u64, StoreKind),
    /// The stores are of two sessions.
    OtherSession,
    /// The packet of this group and number of the second store contradicts the first; the first such, by group, then number.
    Clash(u32, u16),
    /// With this group of the second store the groups of both would cost more than 536,870,912 bytes.
    Full(u32),
}

/// Reads and judges the store FIRST, then the store SECOND, and writes the store of all packets that the one or the other has to
/// OUT. OUT is made once the stores are joined. The first failure of a file ends it.
pub fn merge<P: Place, L: Ledger>(
    alloc: Global,
    first: &str,
    second: &str,
    out: &str,
    place: &mut P,
    steps: &mut Steps<L>,
) -> MergeEnd
    ensures merges { Merges first.now second.now out.now (P.seen place.old) (P.seen place.new)
        result }
    ensures completes { CompletesMerge first.now second.now out.now (P.seen place.old)
        (P.seen place.new) result }
    ensures once { PlaceStops (has_failed result) (P.seen place.old) (P.seen place.new) }
{
    match merge_files(alloc, first, second, out, place) {
        Ok(packets) => MergeEnd::Done(packets),
        Err(end) => end,
    }
}
