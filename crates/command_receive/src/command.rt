//! The command `receive`, and how it ends.
ghost use Rattle.std.specs.Prelude.{◌≡◌};
ghost use Rattle.pet_base.specs.Lent.{seen, AreSame};
ghost use Rattle.pet_base.specs.LinkSeen.{LinkStops};
ghost use Rattle.pet_base.specs.Seen.{PlaceStops};
ghost use Rattle.command_receive.specs.Failures.{end_of_place, end_of_link};
ghost use Rattle.outside_routes.specs.Way.{way_of};
ghost use Rattle.command_receive.specs.inside.Numbers.{IsEndOf, end_of};
ghost use Rattle.command_receive.specs.Receives.{Receives};
ghost use Rattle.command_receive.specs.ReceivesSession.{CompletesReceive};
ghost use Rattle.command_receive.specs.NamedLayers.{NamesWhatItStores};

use crate::reading::{Reading, read_all};
use outside_routes::{Route, RouteStop};
use packet_reading::Totals;
use pet_base::{Link, MAX_DATAGRAMS, Outside, Place, Sink};
use std::alloc::Global;
use std::sync::ledger::Ledger;

/// How `receive` ended.
#[derive(Clone, Copy, Debug, PartialEq, Eq)]
pub enum ReceiveEnd {
    /// Every layer of every group is shown.
    Done(Totals),
    /// No memory was found.
    NoMemory,
    /// A file could not be read or written.
    PlaceFault,
    /// The link could not receive. LAYERS, where it was made, has the records of all datagrams that came.
    LinkFault,
    /// The line of the port could not be printed. No file was made.
    OutFault,
    /// The input has ended, and some layer is not shown.
    Incomplete(Totals),
    /// 16,777,216 datagrams were read.
    TurnsSpent(Totals),
}

/// Reads the datagrams of FROM, a file or a link, and writes the layers of the session to LAYERS as they are shown; then writes the
/// store of all packets that it has kept to STORE, and answers the numbers of all that. It prints nothing but the port at which a
/// link receives, before LAYERS is made. The first failure of a file, of the link or of the output ends it.
pub fn receive<P: Place, K: Link, S: Sink, L: Ledger>(
    alloc: Global,
    from: Route<'_>,
    session: [u8; 8],
    layers: &str,
    store: &str,
    outside: &mut Outside<P, K, S, L>,
) -> ReceiveEnd
    ensures receives { Receives (way_of from.entry) session layers.now store.now (seen outside.old)
        (seen outside.new) result }
    ensures completes { CompletesReceive (way_of from.entry) session layers.now store.now
        (seen outside.old) (seen outside.new) result }
    ensures named { NamesWhatItStores session layers.now store.now (seen outside.old)
        (seen outside.new) result }
    ensures same { AreSame outside.old outside.new }
    ensures once_place { PlaceStops (end_of_place result) (seen outside.old).place
        (seen outside.new).place }
    ensures once_link { LinkStops (end_of_link result) (seen outside.old).link
        (seen outside.new).link }
{
    match read_all(alloc, from, session, layers, store, outside) {
        Ok(reading) => end_after(reading),
        Err(stop) => stopped(stop),
    }
}

/// The end of a command that stops early.
fn stopped(stop: RouteStop) -> ReceiveEnd
    ensures { result ≡ end_of stop }
{
    match stop {
        RouteStop::NoMemory => ReceiveEnd::NoMemory,
        RouteStop::Place => ReceiveEnd::PlaceFault,
        RouteStop::Link => ReceiveEnd::LinkFault,
        RouteStop::Out => ReceiveEnd::OutFault,
    }
}

/// The end by what was read and what is kept.
fn end_after(reading: Reading) -> ReceiveEnd
    ensures { IsEndOf reading result }
{
    let totals = reading.totals;
    if totals.read == MAX_DATAGRAMS {
        ReceiveEnd::TurnsSpent(totals)
    } else if reading.complete {
        ReceiveEnd::Done(totals)
    } else {
        ReceiveEnd::Incomplete(totals)
    }
}
