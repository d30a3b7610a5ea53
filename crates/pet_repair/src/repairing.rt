//! Reading a store, and sending the packets of its complete groups.
ghost use Rattle.std.specs.Prelude.{◌≡◌, ◌≢◌, ◌≤◌, length, IfOk, IfErr};
ghost use Rattle.pet_base.specs.Causes.{stops};
ghost use Rattle.pet_base.specs.LinkSeen.{LinkStops};
ghost use Rattle.pet_base.specs.Seen.{PlaceStops};
ghost use Rattle.outside_routes.specs.Sending.{routes, GrowsTold, IsOpen};
ghost use Rattle.outside_routes.specs.Way.{way_of};
ghost use Rattle.packet_verdicts.specs.KeptSet.{IsKeptSet};
ghost use Rattle.pet_receive.specs.Arrivals.{kept_set};
ghost use Rattle.pet_receive.specs.ShownBytes.{groups_told};
ghost use Rattle.pet_repair.specs.Failures.{repair_of_place, repair_of_link};
ghost use Rattle.pet_repair.specs.Repaired.{count_whole, on_end};
ghost use Rattle.pet_repair.specs.Repairs.{Repairs, RepairsStore};
ghost use Rattle.pet_repair.specs.SentTo.{KeepsLinkTo};
ghost use Rattle.packet_rebuild.specs.Rebuilding.{IsOpenFor};
ghost use Rattle.pet_repair.specs.inside.Groups.{SendsEncoded, SendsGroup, SendsGroups, StopsAtGroup, StopsEncoded, StopsInGroups};

use crate::repair::RepairEnd;
use crate::whole::put_whole;
use outside_routes::{Route, RouteFailed, RouteStop, open_route};
use packet_rebuild::{MadeRange, RepairFault, encoder_of, find_unlike};
use pet_base::{Link, MAX_PACKETS, NoMemory, Place, Steps};
use pet_encode::Encoder;
use pet_field::Gf16Tables;
use pet_receive::Receiver;
use std::alloc::Global;
use std::sync::ledger::Ledger;
use store_merge::{StoreStop, read_store_file};

/// How many groups were complete, and how many packets of them were sent.
#[derive(Clone, Copy, Debug, PartialEq, Eq)]
pub(crate) struct Repaired {
    /// At most 65,535.
    pub(crate) groups: u32,
    /// At most 65,535 times 4,096.
    pub(crate) datagrams: u32,
}

impl From<NoMemory> for RepairEnd {
    ghost use Rattle.pet_repair.specs.declared.repair.RepairEnd.TheVariants.{NoMemory as no_memory};

    ghost from_gives = { λ _ end. end ≡ no_memory };

    fn from(_e: NoMemory) -> RepairEnd {
        RepairEnd::NoMemory
    }
}

impl From<RouteFailed> for RepairEnd {
    ghost use Rattle.pet_repair.specs.inside.Groups.{end_of_failed};

    ghost from_gives = { λ failed end. end ≡ end_of_failed failed };

    fn from(failed: RouteFailed) -> RepairEnd {
        RepairEnd::from(RouteStop::from(failed))
    }
}

impl From<RouteStop> for RepairEnd {
    ghost use Rattle.pet_repair.specs.inside.Groups.{end_of_stop};

    ghost from_gives = { λ stop end. end ≡ end_of_stop stop };

    fn from(stop: RouteStop) -> RepairEnd {
        match stop {
            RouteStop::Place => RepairEnd::PlaceFault,
            RouteStop::Link => RepairEnd::LinkFault,
            // No output is used, so none can fail.
            RouteStop::NoMemory | RouteStop::Out => RepairEnd::NoMemory,
        }
    }
}

impl From<StoreStop> for RepairEnd {
    ghost use Rattle.pet_repair.specs.inside.Groups.{end_of_store};

    ghost from_gives = { λ stop end. end ≡ end_of_store stop };

    fn from(stop: StoreStop) -> RepairEnd {
        match stop {
            StoreStop::At(at, kind) => RepairEnd::BadStore(at, kind),
            StoreStop::NoMemory => RepairEnd::NoMemory,
            StoreStop::Failed => RepairEnd::PlaceFault,
        }
    }
}

/// Reads the store, makes TO ready, and sends the packets of the complete groups.
pub(crate) fn repair_store<P: Place, K: Link, L: Ledger>(
    alloc: Global,
    store: &str,
    to: Route<'_>,
    place: &mut P,
    link: &mut K,
    steps: &mut Steps<L>,
) -> Result<Repaired, RepairEnd>
    ensures done { IfOk result (λ n. (r : RepairsStore store.now (way_of to.entry)
        (routes P.Place K.Link place.old link.old) (routes P.Place K.Link place.new link.new))
        × (n.groups ≡ count_whole (kept_set r.held.state) (groups_told (kept_set r.held.state)))
        × (n.datagrams ≡ length (on_end r.groups))) }
    ensures stop { IfErr result (Repairs store.now (way_of to.entry)
        (routes P.Place K.Link place.old link.old) (routes P.Place K.Link place.new link.new)) }
    ensures kept { KeepsLinkTo (way_of to.entry) (K.seen link.old) (K.seen link.new) }
    ensures once_place { PlaceStops (stops repair_of_place result) (P.seen place.old) (P.seen place.new) }
    ensures once_link { LinkStops (stops repair_of_link result) (K.seen link.old) (K.seen link.new) }
{
    let field = Gf16Tables::new(alloc)?;
    let receiver = read_store_file(alloc, &field, store, place, steps)?;
    open_route(to, place, link)?;
    repair_groups(alloc, to, &field, &receiver, place, link, steps)
}

/// Sends the packets of the complete groups that a receiver has kept.
fn repair_groups<P: Place, K: Link, L: Ledger>(
    alloc: Global,
    to: Route<'_>,
    field: &Gf16Tables,
    receiver: &Receiver<'_, Gf16Tables>,
    place: &mut P,
    link: &mut K,
    steps: &mut Steps<L>,
) -> Result<Repaired, RepairEnd>
    requires open { IsOpen (way_of to) (routes P.Place K.Link place.old link.old) }
    ensures done { IfOk result (λ n. SendsGroups (way_of to.entry) receiver.now
        (groups_told (kept_set receiver.now)) n (routes P.Place K.Link place.old link.old)
        (routes P.Place K.Link place.new link.new)) }
    ensures stop { IfErr result (StopsInGroups (way_of to.entry) receiver.now
        (routes P.Place K.Link place.old link.old) (routes P.Place K.Link place.new link.new)) }
    ensures told { GrowsTold repair_of_place repair_of_link result (routes P.Place K.Link place.old link.old)
        (routes P.Place K.Link place.new link.new) }
{
    let groups = receiver.groups().unwrap_or(0);
    let mut done = Repaired {
        groups: 0,
        datagrams: 0,
    };
    for group in 0..groups {
        let more = repair_group(alloc, to, field, receiver, group, place, link, steps)?;
        done.groups += more.groups;
        done.datagrams += more.datagrams;
    }
    Ok(done)
}

/// Sends the packets of a group, where all its layers are shown, and else nothing.
fn repair_group<P: Place, K: Link, L: Ledger>(
    alloc: Global,
    to: Route<'_>,
    field: &Gf16Tables,
    receiver: &Receiver<'_, Gf16Tables>,
    group: u32,
    place: &mut P,
    link: &mut K,
    steps: &mut Steps<L>,
) -> Result<Repaired, RepairEnd>
    requires open { IsOpen (way_of to) (routes P.Place K.Link place.old link.old) }
    requires sound { IsKeptSet (kept_set receiver.now) }
    ensures done { IfOk result (λ n. SendsGroup (way_of to.entry) receiver.now group n
        (routes P.Place K.Link place.old link.old) (routes P.Place K.Link place.new link.new)) }
    ensures few { IfOk result (λ n. (n.groups ≤ 1) × (n.datagrams ≤ MAX_PACKETS)) }
    ensures stop { IfErr result (StopsAtGroup (way_of to.entry) receiver.now group
        (routes P.Place K.Link place.old link.old) (routes P.Place K.Link place.new link.new)) }
    ensures told { GrowsTold repair_of_place repair_of_link result (routes P.Place K.Link place.old link.old)
        (routes P.Place K.Link place.new link.new) }
{
    match encoder_of(alloc, field, receiver, group) {
        Ok(encoder) => send_whole(alloc, to, receiver, &encoder, group, place, link, steps),
        Err(fault) => nothing_of(fault),
    }
}

/// Nothing is sent of a group that has no encoder.
fn nothing_of(fault: RepairFault) -> Result<Repaired, RepairEnd>
    ensures none { IfOk result (λ n. (n.groups ≡ 0) × (n.datagrams ≡ 0) × (fault ≢ RepairFault.NoMemory)) }
    ensures memory { IfErr result (λ end. end ≡ RepairEnd.NoMemory) }
{
    match fault {
        RepairFault::NoMemory => Err(RepairEnd::NoMemory),
        RepairFault::NotOpen | RepairFault::NotShown(_) => Ok(Repaired {
            groups: 0,
            datagrams: 0,
        }),
    }
}

/// Sends the packets of a group whose encoder this is, where that makes what is kept.
fn send_whole<P: Place, K: Link, L: Ledger>(
    alloc: Global,
    to: Route<'_>,
    receiver: &Receiver<'_, Gf16Tables>,
    encoder: &Encoder<'_, Gf16Tables>,
    group: u32,
    place: &mut P,
    link: &mut K,
    steps: &mut Steps<L>,
) -> Result<Repaired, RepairEnd>
    requires open { IsOpen (way_of to) (routes P.Place K.Link place.old link.old) }
    requires opened { IsOpenFor (kept_set receiver.now) encoder.now }
    ensures done { IfOk result (λ n. SendsEncoded (way_of to.entry) receiver.now encoder.now n
        (routes P.Place K.Link place.old link.old) (routes P.Place K.Link place.new link.new)) }
    ensures few { IfOk result (λ n. (n.groups ≤ 1) × (n.datagrams ≤ MAX_PACKETS)) }
    ensures stop { IfErr result (StopsEncoded (way_of to.entry) receiver.now encoder.now group
        (routes P.Place K.Link place.old link.old) (routes P.Place K.Link place.new link.new)) }
    ensures told { GrowsTold repair_of_place repair_of_link result (routes P.Place K.Link place.old link.old)
        (routes P.Place K.Link place.new link.new) }
{
    let mut made = MadeRange::new(alloc);
    match find_unlike(receiver, encoder, &mut made, steps)? {
        Some(number) => Err(RepairEnd::Unlike(group, number)),
        None => {
            put_whole(alloc, to, encoder, &mut made, place, link, steps)?;
            Ok(Repaired {
                groups: 1,
                datagrams: u32::from(encoder.header().table.packets()),
            })
        }
    }
}
