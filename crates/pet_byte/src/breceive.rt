//! The command `breceive`, and how it ends.
ghost use Rattle.std.specs.Prelude.{◌≡◌};
ghost use Rattle.pet_base.specs.Lent.{seen, AreSame};
ghost use Rattle.pet_base.specs.LinkSeen.{LinkStops};
ghost use Rattle.pet_base.specs.OutsideSeen.{outside_seen};
ghost use Rattle.pet_base.specs.Seen.{PlaceStops};
ghost use Rattle.outside_routes.specs.Way.{way_at};
ghost use Rattle.pet_byte.specs.BytesReceived.{CompletesBytes};
ghost use Rattle.pet_byte.specs.Failures.{byte_of_place, byte_of_link};
ghost use Rattle.pet_byte.specs.ReceivesBytes.{ReceivesBytes};
ghost use Rattle.pet_byte.specs.inside.Ends.{IsByteEndOf, byte_end_of};

use gf8::Gf8Tables;
use outside_routes::{RouteStop, route_at};
use packet_frame::BYTE_FORMAT;
use packet_reading::{Totals, read_layers};
use pet_base::{Link, MAX_DATAGRAMS, Outside, Place, Sink, Steps};
use std::alloc::Global;
use std::sync::ledger::Ledger;

/// How `breceive` ended.
#[derive(Clone, Copy, Debug, PartialEq, Eq)]
pub enum ByteEnd {
    /// Every layer of every group is shown.
    Done {
        /// How many datagrams were read, at most 16,777,216.
        read: u32,
        /// How many packets are kept.
        kept: u32,
        /// How many layers are shown.
        shown: u32,
    },
    /// No memory was found.
    NoMemory,
    /// A file could not be read or written.
    PlaceFault,
    /// The link could not receive. LAYERS, where it was made, has the records of all datagrams that came.
    LinkFault,
    /// The line of the port could not be printed. No file was made.
    OutFault,
    /// The input has ended, and some layer is not shown.
    Incomplete {
        /// How many datagrams were read.
        read: u32,
        /// How many packets are kept.
        kept: u32,
        /// How many layers are shown.
        shown: u32,
    },
    /// 16,777,216 datagrams were read.
    TurnsSpent {
        /// That many.
        read: u32,
        /// How many packets are kept.
        kept: u32,
        /// How many layers are shown.
        shown: u32,
    },
}

/// Reads the datagrams of FROM, a file or an address, and writes the layers of a session of the byte profile to LAYERS as they are
/// shown; it answers the numbers of that. It prints nothing but the port at which a link receives, before LAYERS is made. The first
/// failure of a file, of the link or of the output ends it.
pub fn breceive_loop<P: Place, K: Link, S: Sink, L: Ledger>(
    alloc: Global,
    from: &str,
    from_udp: bool,
    session: [u8; 8],
    layers: &str,
    place: &mut P,
    link: &mut K,
    out: &mut S,
    steps: &mut Steps<L>,
) -> ByteEnd
    ensures receives { let outside = outside_seen P.Place K.Link S.Sink in
        ReceivesBytes (way_at from_udp from.now) session layers.now
        (outside place.old link.old out.old steps.old) (outside place.new link.new out.new steps.new) result }
    ensures completes { let outside = outside_seen P.Place K.Link S.Sink in
        CompletesBytes (way_at from_udp from.now) session layers.now
        (outside place.old link.old out.old steps.old) (outside place.new link.new out.new steps.new) result }
    ensures once_place { PlaceStops (byte_of_place result) (P.seen place.old) (P.seen place.new) }
    ensures once_link { LinkStops (byte_of_link result) (K.seen link.old) (K.seen link.new) }
{
    let mut outside = Outside {
        place,
        link,
        out,
        steps,
    };
    breceive(alloc, from, from_udp, session, layers, &mut outside)
}

/// The same over the outside as one value.
fn breceive<P: Place, K: Link, S: Sink, L: Ledger>(
    alloc: Global,
    from: &str,
    from_udp: bool,
    session: [u8; 8],
    layers: &str,
    outside: &mut Outside<P, K, S, L>,
) -> ByteEnd
    ensures receives { ReceivesBytes (way_at from_udp from.now) session layers.now (seen outside.old)
        (seen outside.new) result }
    ensures same { AreSame outside.old outside.new }
    ensures once_place { PlaceStops (byte_of_place result) (seen outside.old).place
        (seen outside.new).place }
    ensures once_link { LinkStops (byte_of_link result) (seen outside.old).link
        (seen outside.new).link }
{
    let field = Gf8Tables::new();
    match read_layers(
        alloc,
        &field,
        BYTE_FORMAT,
        route_at(from_udp, from),
        session,
        layers,
        outside,
    ) {
        Ok(read) => end_after(read.totals, read.complete),
        Err(stop) => stopped(stop),
    }
}

/// The end by what was read and what is shown.
fn end_after(totals: Totals, complete: bool) -> ByteEnd
    ensures { IsByteEndOf totals complete result }
{
    let Totals { read, kept, shown } = totals;
    if read == MAX_DATAGRAMS {
        ByteEnd::TurnsSpent { read, kept, shown }
    } else if complete {
        ByteEnd::Done { read, kept, shown }
    } else {
        ByteEnd::Incomplete { read, kept, shown }
    }
}

/// The end of a command that stops early.
fn stopped(stop: RouteStop) -> ByteEnd
    ensures { result ≡ byte_end_of stop }
{
    match stop {
        RouteStop::NoMemory => ByteEnd::NoMemory,
        RouteStop::Place => ByteEnd::PlaceFault,
        RouteStop::Link => ByteEnd::LinkFault,
        RouteStop::Out => ByteEnd::OutFault,
    }
}
