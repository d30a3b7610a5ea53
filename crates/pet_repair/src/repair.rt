//! The command `repair`, and how it ends.
ghost use Rattle.std.specs.Prelude.{◌≡◌};
ghost use Rattle.pet_base.specs.LinkSeen.{LinkStops};
ghost use Rattle.pet_base.specs.Seen.{PlaceStops};
ghost use Rattle.outside_routes.specs.Sending.{routes};
ghost use Rattle.pet_repair.specs.Failures.{repair_of_place, repair_of_link};
ghost use Rattle.pet_repair.specs.Repairs.{Repairs, CompletesRepair};
ghost use Rattle.pet_repair.specs.SentTo.{KeepsLinkTo, way_at};

use crate::repairing::repair_store;
use outside_routes::route_at;
use pet_base::{Link, Place, Steps};
use std::alloc::Global;
use std::sync::ledger::Ledger;
use store_text::StoreKind;

/// How `repair` ended.
#[derive(Clone, Copy, Debug, PartialEq, Eq)]
pub enum RepairEnd {
    /// TO has all packets of the groups all of whose layers are shown.
    Done {
        /// How many groups these are.
        groups: u32,
        /// How many packets were sent.
        datagrams: u32,
    },
    /// No memory was found.
    NoMemory,
    /// A file could not be read or written.
    PlaceFault,
    /// The link could not send.
    LinkFault,
    /// The store is refused, at this place.
    BadStore(u64, StoreKind),
    /// The packet of this group and number is kept with another payload than the group's encoder makes; the first such group, and
    /// the least such number of it. TO has what stands before that group.
    Unlike(u32, u16),
}

/// Reads and judges the store STORE, and sends to TO, a file or an address, of each group all of whose layers are shown, by group,
/// then number, all its packets. TO is made ready once the store was read. The first failure of a file or of the link ends it.
pub fn repair_loop<P: Place, K: Link, L: Ledger>(
    alloc: Global,
    store: &str,
    to: &str,
    to_udp: bool,
    place: &mut P,
    link: &mut K,
    steps: &mut Steps<L>,
) -> RepairEnd
    ensures repairs { Repairs store.now (way_at to_udp to.now) (routes P.Place K.Link place.old link.old)
        (routes P.Place K.Link place.new link.new) result }
    ensures completes { CompletesRepair store.now (way_at to_udp to.now)
        (routes P.Place K.Link place.old link.old) (routes P.Place K.Link place.new link.new) result }
    ensures kept { KeepsLinkTo (way_at to_udp to.now) (K.seen link.old) (K.seen link.new) }
    ensures once_place { PlaceStops (repair_of_place result) (P.seen place.old) (P.seen place.new) }
    ensures once_link { LinkStops (repair_of_link result) (K.seen link.old) (K.seen link.new) }
{
    match repair_store(alloc, store, route_at(to_udp, to), place, link, steps) {
        Ok(repaired) => RepairEnd::Done {
            groups: repaired.groups,
            datagrams: repaired.datagrams,
        },
        Err(end) => end,
    }
}
