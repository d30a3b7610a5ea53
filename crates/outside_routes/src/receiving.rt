//! Receiving datagrams.
ghost use Rattle.std.specs.Prelude.{◌≡◌, ◌≤◌, length, true, option_map, is_err, IfOk, IfErr, OnErr};
ghost use Rattle.pet_base.specs.declared.limits.TheConstants.{MAX_ENTRY};
ghost use Rattle.pet_base.specs.declared.place.Side.TheVariants.{Read};
ghost use Rattle.pet_base.specs.declared.link.LinkSide.TheVariants.{Bound};
ghost use Rattle.pet_base.specs.Causes.{Blames, stops};
ghost use Rattle.pet_base.specs.Entries.{IsShort, HasLost, IsPartOfEntry, datagrams};
ghost use Rattle.pet_base.specs.LinkSeen.{OnlyReceives, HasBlame as HasLinkBlame, LinkStops};
ghost use Rattle.pet_base.specs.Seen.{OnlyReads, HasBlame, PlaceStops};
ghost use Rattle.outside_routes.specs.Way.{way_of};
ghost use Rattle.outside_routes.specs.Coming.{coming, TakesDatagram, KeepsFeed, LosesPart, OnlyTakes, HasInput};
ghost use Rattle.outside_routes.specs.RouteFaults.{IsFailure, InputFailed, ReceivingFailed, of_place, of_link};

use crate::fault::RouteFailed;
use crate::route::Route;
use pet_base::{Entry, Failed, Got, Link, Place, next_entry};

/// Receives one datagram to the front of the buffer: the next entry of the input, or what the link receives. It takes no memory.
pub fn next_datagram<P: Place, K: Link>(
    route: Route<'_>,
    place: &mut P,
    link: &mut K,
    into: &mut [u8],
) -> Result<Entry, RouteFailed>
    requires input { HasInput (way_of route) (P.seen place.old) }
    requires room { MAX_ENTRY ≤ length into.old }
    ensures datagram { IfOk result (λ e. TakesDatagram
        (coming (way_of route.entry) (P.seen place.old) (K.seen link.old)) e into.new
        (coming (way_of route.entry) (P.seen place.new) (K.seen link.new))) }
    ensures short { IfOk result IsShort }
    ensures feed { OnErr result (KeepsFeed (way_of route.entry) (K.seen link.old) (K.seen link.new)) }
    ensures part { OnErr result (LosesPart (way_of route.entry) (P.seen place.old) (P.seen place.new)) }
    ensures others { OnlyTakes (way_of route.entry) (P.seen place.old) (K.seen link.old)
        (P.seen place.new) (K.seen link.new) }
    ensures cause { IfErr result (IsFailure
        (InputFailed (way_of route.entry) (P.seen place.old) (P.seen place.new))
        (ReceivingFailed (way_of route.entry) (K.seen link.old) (K.seen link.new))) }
    ensures once_place { PlaceStops (stops of_place result) (P.seen place.old) (P.seen place.new) }
    ensures once_link { LinkStops (stops of_link result) (K.seen link.old) (K.seen link.new) }
{
    match route {
        Route::File(_) => read_entry(place, into).map_err(|_| RouteFailed::Place),
        Route::Udp(_) => receive(link, into).map_err(|_| RouteFailed::Link),
    }
}

/// Reads the next entry of the input, as a datagram that was to come.
fn read_entry<P: Place>(place: &mut P, into: &mut [u8]) -> Result<Entry, Failed>
    requires input { (P.seen place.old).has_input ≡ true }
    requires room { MAX_ENTRY ≤ length into.old }
    ensures datagram { IfOk result (λ e. TakesDatagram
        (option_map datagrams (P.seen place.old).rest) e into.new
        (option_map datagrams (P.seen place.new).rest)) }
    ensures short { IfOk result IsShort }
    ensures part { OnErr result (HasLost IsPartOfEntry (P.seen place.old).rest (P.seen place.new).rest) }
    ensures others { OnlyReads (P.seen place.old) (P.seen place.new) }
    ensures cause { HasBlame (P.seen place.old) (P.seen place.new) result
        (Blames Read (P.seen place.old).source) }
    ensures once { PlaceStops (is_err result) (P.seen place.old) (P.seen place.new) }
{
    next_entry(place, into)
}

/// Receives what the link has, as an entry.
fn receive<K: Link>(link: &mut K, into: &mut [u8]) -> Result<Entry, Failed>
    requires { MAX_ENTRY ≤ length into.old }
    ensures datagram { IfOk result (λ e. TakesDatagram (K.seen link.old).feed e into.new
        (K.seen link.new).feed) }
    ensures short { IfOk result IsShort }
    ensures err { OnErr result ((K.seen link.new).feed ≡ (K.seen link.old).feed) }
    ensures others { OnlyReceives (K.seen link.old) (K.seen link.new) }
    ensures cause { HasLinkBlame (K.seen link.old) (K.seen link.new) result
        (Blames Bound (K.seen link.old).bound) }
    ensures once { LinkStops (is_err result) (K.seen link.old) (K.seen link.new) }
{
    match link.next(into)? {
        Got::Datagram(len) => Ok(Entry::Datagram(len)),
        Got::Quiet => Ok(Entry::End),
    }
}
