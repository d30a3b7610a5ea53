//! One arrival of a relay.
ghost use Rattle.std.specs.Prelude.{◌≡◌, ◌≢◌, ◌≤◌, length, OnOk, IfErr};
ghost use Rattle.pet_base.specs.declared.limits.TheConstants.{MAX_ENTRY};
ghost use Rattle.outside_routes.specs.Sending.{routes, GrowsTold, IsOpen};
ghost use Rattle.outside_routes.specs.Way.{way_of};
ghost use Rattle.packet_verdicts.specs.KeptSet.{IsKeptSet};
ghost use Rattle.pet_receive.specs.Arrivals.{kept_set};
ghost use Rattle.packet_rebuild.specs.Rebuilding.{IsOpenFor};
ghost use Rattle.pet_repair.specs.inside.Arrivals.{SendsLike, StopsLike, SendsCompletion, StopsCompletion, SendsArrival, StopsArrival, relay_of_place, relay_of_link};

use crate::again::put_others;
use outside_routes::{Route, RouteFailed, RouteStop, put_datagram};
use packet_rebuild::{MadeRange, RepairFault, encoder_of, find_unlike};
use packet_verdicts::{Verdict, group_of};
use pet_base::{Link, NoMemory, Place, Steps};
use pet_encode::Encoder;
use pet_field::Gf16Tables;
use pet_receive::Receiver;
use std::alloc::{AllocError, Global};
use std::sync::ledger::Ledger;

/// Why a relay stops early.
#[derive(Clone, Copy)]
pub(crate) enum RelayStop {
    /// No memory was found, or a call failed.
    Route(RouteStop),
    /// The packet of this group and number is kept with another payload than the group's encoder makes.
    Unlike(u32, u16),
}

impl From<NoMemory> for RelayStop {
    ghost use Rattle.pet_repair.specs.declared.arriving.RelayStop.TheVariants.{Route};
    ghost use Rattle.outside_routes.specs.declared.fault.RouteStop.TheVariants as stop;

    ghost from_gives = { λ _ end. end ≡ Route stop.NoMemory };

    fn from(_e: NoMemory) -> RelayStop {
        RelayStop::Route(RouteStop::NoMemory)
    }
}

impl From<AllocError> for RelayStop {
    ghost use Rattle.pet_repair.specs.declared.arriving.RelayStop.TheVariants.{Route};
    ghost use Rattle.outside_routes.specs.declared.fault.RouteStop.TheVariants as stop;

    ghost from_gives = { λ _ end. end ≡ Route stop.NoMemory };

    fn from(_e: AllocError) -> RelayStop {
        RelayStop::Route(RouteStop::NoMemory)
    }
}

impl From<RouteFailed> for RelayStop {
    ghost use Rattle.pet_repair.specs.declared.arriving.RelayStop.TheVariants.{Route};
    ghost use Rattle.outside_routes.specs.RouteFaults.{stop_of_route};

    ghost from_gives = { λ failed end. end ≡ Route (stop_of_route failed) };

    fn from(failed: RouteFailed) -> RelayStop {
        RelayStop::Route(RouteStop::from(failed))
    }
}

impl From<RouteStop> for RelayStop {
    ghost use Rattle.pet_repair.specs.declared.arriving.RelayStop.TheVariants.{Route};

    ghost from_gives = { λ stop end. end ≡ Route stop };

    fn from(stop: RouteStop) -> RelayStop {
        RelayStop::Route(stop)
    }
}

/// Hands a datagram to the receiver, and sends it where it is kept; and where with it the last layer of its group is shown, sends
/// and keeps the other packets of the group, by number.
pub(crate) fn relay_one<P: Place, K: Link, L: Ledger>(
    alloc: Global,
    field: &Gf16Tables,
    to: Route<'_>,
    receiver: &mut Receiver<'_, Gf16Tables>,
    datagram: &[u8],
    entry: &mut Vec<u8>,
    place: &mut P,
    link: &mut K,
    steps: &mut Steps<L>,
) -> Result<(), RelayStop>
    requires open { IsOpen (way_of to) (routes P.Place K.Link place.old link.old) }
    requires short { length datagram.now ≤ MAX_ENTRY }
    requires sound { IsKeptSet (kept_set receiver.old) }
    ensures done { OnOk result (SendsArrival (way_of to.entry) receiver.old datagram.now receiver.new
        (routes P.Place K.Link place.old link.old) (routes P.Place K.Link place.new link.new)) }
    ensures stopped { IfErr result (StopsArrival (way_of to.entry) receiver.old datagram.now
        (routes P.Place K.Link place.old link.old) (routes P.Place K.Link place.new link.new)) }
    ensures told { GrowsTold relay_of_place relay_of_link result (routes P.Place K.Link place.old link.old)
        (routes P.Place K.Link place.new link.new) }
{
    match receiver.accept(datagram, steps)? {
        Verdict::Kept(shown) => {
            put_datagram(to, place, link, datagram, entry)?;
            if shown.bits == 0 {
                return Ok(());
            }
            let group = group_of(datagram);
            complete(alloc, field, to, receiver, group, entry, place, link, steps)
        }
        _ => Ok(()),
    }
}

/// Sends and keeps the packets of a group that are not kept, where all its layers are shown.
fn complete<P: Place, K: Link, L: Ledger>(
    alloc: Global,
    field: &Gf16Tables,
    to: Route<'_>,
    receiver: &mut Receiver<'_, Gf16Tables>,
    group: u32,
    entry: &mut Vec<u8>,
    place: &mut P,
    link: &mut K,
    steps: &mut Steps<L>,
) -> Result<(), RelayStop>
    requires open { IsOpen (way_of to) (routes P.Place K.Link place.old link.old) }
    requires sound { IsKeptSet (kept_set receiver.old) }
    ensures done { OnOk result (SendsCompletion (way_of to.entry) receiver.old group receiver.new
        (routes P.Place K.Link place.old link.old) (routes P.Place K.Link place.new link.new)) }
    ensures stopped { IfErr result (StopsCompletion (way_of to.entry) receiver.old group
        (routes P.Place K.Link place.old link.old) (routes P.Place K.Link place.new link.new)) }
    ensures told { GrowsTold relay_of_place relay_of_link result (routes P.Place K.Link place.old link.old)
        (routes P.Place K.Link place.new link.new) }
{
    match encoder_of(alloc, field, receiver, group) {
        Ok(encoder) => make_whole(
            alloc, to, receiver, &encoder, group, entry, place, link, steps,
        ),
        Err(fault) => not_whole(fault),
    }
}

/// Nothing is sent where a layer is not shown.
fn not_whole(fault: RepairFault) -> Result<(), RelayStop>
    ensures other { OnOk result (fault ≢ RepairFault.NoMemory) }
    ensures memory { IfErr result (λ e. e ≡ RelayStop.Route RouteStop.NoMemory) }
{
    match fault {
        RepairFault::NoMemory => Err(RelayStop::Route(RouteStop::NoMemory)),
        RepairFault::NotOpen => Ok(()),
        RepairFault::NotShown(_) => Ok(()),
    }
}

/// Sends and keeps the packets of a whole group that are not kept, where its encoder makes what is kept.
fn make_whole<P: Place, K: Link, L: Ledger>(
    alloc: Global,
    to: Route<'_>,
    receiver: &mut Receiver<'_, Gf16Tables>,
    encoder: &Encoder<'_, Gf16Tables>,
    group: u32,
    entry: &mut Vec<u8>,
    place: &mut P,
    link: &mut K,
    steps: &mut Steps<L>,
) -> Result<(), RelayStop>
    requires open { IsOpen (way_of to) (routes P.Place K.Link place.old link.old) }
    requires opened { IsOpenFor (kept_set receiver.old) encoder.now }
    ensures done { OnOk result (SendsLike (way_of to.entry) receiver.old encoder.now receiver.new
        (routes P.Place K.Link place.old link.old) (routes P.Place K.Link place.new link.new)) }
    ensures stopped { IfErr result (StopsLike (way_of to.entry) receiver.old encoder.now group
        (routes P.Place K.Link place.old link.old) (routes P.Place K.Link place.new link.new)) }
    ensures told { GrowsTold relay_of_place relay_of_link result (routes P.Place K.Link place.old link.old)
        (routes P.Place K.Link place.new link.new) }
{
    let mut made = MadeRange::new(alloc);
    match find_unlike(receiver, encoder, &mut made, steps)? {
        Some(number) => Err(RelayStop::Unlike(group, number)),
        None => Ok(put_others(
            alloc, to, receiver, encoder, &mut made, entry, place, link, steps,
        )?),
    }
}
