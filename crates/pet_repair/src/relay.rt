//! The command `relay`, and how it ends.
ghost use Rattle.std.specs.Prelude.{◌≡◌};
ghost use Rattle.pet_base.specs.Lent.{seen, AreSame};
ghost use Rattle.pet_base.specs.LinkSeen.{LinkStops};
ghost use Rattle.pet_base.specs.OutsideSeen.{outside_seen};
ghost use Rattle.pet_base.specs.Seen.{PlaceStops};
ghost use Rattle.outside_routes.specs.Way.{way_of};
ghost use Rattle.pet_repair.specs.Failures.{relay_end_of_place, relay_end_of_link};
ghost use Rattle.pet_repair.specs.Relays.{DoesRelay};
ghost use Rattle.pet_repair.specs.RelaysSession.{CompletesRelay};
ghost use Rattle.pet_repair.specs.SentTo.{way_at};
ghost use Rattle.pet_repair.specs.inside.RelayEnds.{end_of_relay, IsEndOf};

use crate::arriving::RelayStop;
use crate::relaying::{Relaying, relay};
use outside_routes::{Route, RouteStop, route_at};
use pet_base::{Link, MAX_DATAGRAMS, Outside, Place, Sink, Steps};
use std::alloc::Global;
use std::sync::ledger::Ledger;

/// How `relay` ended.
#[derive(Clone, Copy, Debug, PartialEq, Eq)]
pub enum RelayEnd {
    /// Every layer of every group is shown.
    Done {
        /// How many datagrams were read.
        read: u32,
        /// How many were sent.
        sent: u32,
    },
    /// No memory was found.
    NoMemory,
    /// A file could not be read or written.
    PlaceFault,
    /// The link could not receive or send.
    LinkFault,
    /// The line of the port could not be printed.
    OutFault,
    /// The input has ended, and some layer is not shown.
    Incomplete {
        /// How many datagrams were read.
        read: u32,
        /// How many were sent.
        sent: u32,
    },
    /// 16,777,216 datagrams were read.
    TurnsSpent {
        /// How many datagrams were read.
        read: u32,
        /// How many were sent.
        sent: u32,
    },
    /// The packet of this group and number is kept with another payload than the group's encoder makes, when the group is to be made
    /// again; the least such number. TO has what came before, and the datagram with which the group is whole.
    Unlike(u32, u16),
}

/// Reads the datagrams of FROM, a file or an address, and sends each to TO that is kept of the session at its arrival; and where with
/// it the last layer of its group is shown, the other packets of the group, by number, which are kept too. It prints nothing but the
/// port at which a link receives, before TO is made ready. The first failure of a file, of the link or of the output ends it.
pub fn relay_loop<P: Place, K: Link, S: Sink, L: Ledger>(
    alloc: Global,
    from: &str,
    from_udp: bool,
    session: [u8; 8],
    to: &str,
    to_udp: bool,
    place: &mut P,
    link: &mut K,
    out: &mut S,
    steps: &mut Steps<L>,
) -> RelayEnd
    ensures relays { DoesRelay (way_at from_udp from.now) session (way_at to_udp to.now)
        (outside_seen P.Place K.Link S.Sink place.old link.old out.old steps.old)
        (outside_seen P.Place K.Link S.Sink place.new link.new out.new steps.new) result }
    ensures completes { CompletesRelay (way_at from_udp from.now) session (way_at to_udp to.now)
        (outside_seen P.Place K.Link S.Sink place.old link.old out.old steps.old)
        (outside_seen P.Place K.Link S.Sink place.new link.new out.new steps.new) result }
    ensures once_place { PlaceStops (relay_end_of_place result) (P.seen place.old) (P.seen place.new) }
    ensures once_link { LinkStops (relay_end_of_link result) (K.seen link.old) (K.seen link.new) }
{
    let (from, to) = (route_at(from_udp, from), route_at(to_udp, to));
    relay_between(alloc, from, session, to, place, link, out, steps)
}

/// The same of routes.
fn relay_between<P: Place, K: Link, S: Sink, L: Ledger>(
    alloc: Global,
    from: Route<'_>,
    session: [u8; 8],
    to: Route<'_>,
    place: &mut P,
    link: &mut K,
    out: &mut S,
    steps: &mut Steps<L>,
) -> RelayEnd
    ensures relays { DoesRelay (way_of from.entry) session (way_of to.entry)
        (outside_seen P.Place K.Link S.Sink place.old link.old out.old steps.old)
        (outside_seen P.Place K.Link S.Sink place.new link.new out.new steps.new) result }
    ensures once_place { PlaceStops (relay_end_of_place result) (P.seen place.old) (P.seen place.new) }
    ensures once_link { LinkStops (relay_end_of_link result) (K.seen link.old) (K.seen link.new) }
{
    let mut outside = Outside {
        place,
        link,
        out,
        steps,
    };
    relay_routes(alloc, from, session, to, &mut outside)
}

/// The same, over objects that are lent.
fn relay_routes<P: Place, K: Link, S: Sink, L: Ledger>(
    alloc: Global,
    from: Route<'_>,
    session: [u8; 8],
    to: Route<'_>,
    outside: &mut Outside<P, K, S, L>,
) -> RelayEnd
    ensures relays { DoesRelay (way_of from.entry) session (way_of to.entry) (seen outside.old)
        (seen outside.new) result }
    ensures same { AreSame outside.old outside.new }
    ensures once_place { PlaceStops (relay_end_of_place result) (seen outside.old).place
        (seen outside.new).place }
    ensures once_link { LinkStops (relay_end_of_link result) (seen outside.old).link
        (seen outside.new).link }
{
    match relay(alloc, from, session, to, outside) {
        Ok(relaying) => end_after(relaying),
        Err(stop) => stopped(stop),
    }
}

/// The end of a relay that stops early.
fn stopped(stop: RelayStop) -> RelayEnd
    ensures { result ≡ end_of_relay stop }
{
    match stop {
        RelayStop::Route(RouteStop::NoMemory) => RelayEnd::NoMemory,
        RelayStop::Route(RouteStop::Place) => RelayEnd::PlaceFault,
        RelayStop::Route(RouteStop::Link) => RelayEnd::LinkFault,
        RelayStop::Route(RouteStop::Out) => RelayEnd::OutFault,
        RelayStop::Unlike(group, number) => RelayEnd::Unlike(group, number),
    }
}

/// The end by what was read and what is kept.
fn end_after(relaying: Relaying) -> RelayEnd
    ensures { IsEndOf relaying result }
{
    let Relaying {
        read,
        sent,
        complete,
    } = relaying;
    if read == MAX_DATAGRAMS {
        RelayEnd::TurnsSpent { read, sent }
    } else if complete {
        RelayEnd::Done { read, sent }
    } else {
        RelayEnd::Incomplete { read, sent }
    }
}
