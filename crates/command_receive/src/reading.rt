//! Reading the datagrams of a file or of a link, and writing the layers that they show and the store of what is kept.
ghost use Rattle.std.specs.Prelude.{◌≤◌, OnOk, IfOk, IfErr};
ghost use Rattle.pet_base.specs.Lent.{seen, AreSame};
ghost use Rattle.pet_base.specs.Causes.{stops};
ghost use Rattle.pet_base.specs.Seen.{PlaceStops};
ghost use Rattle.pet_base.specs.LinkSeen.{LinkStops};
ghost use Rattle.outside_routes.specs.Way.{way_of};
ghost use Rattle.outside_routes.specs.RouteFaults.{stop_of_a_place, stop_of_a_link};
ghost use Rattle.packet_reading.specs.Begun.{IsBoundWhereStopped, OutStops, stop_of_an_output};
ghost use Rattle.command_receive.specs.inside.Numbers.{IsReadingOf, end_of};
ghost use Rattle.command_receive.specs.Opened.{IsBoundTo, KeepsLink, PrintedPort};
ghost use Rattle.command_receive.specs.Receives.{Reads, EndsReceive};

use outside_routes::{Route, RouteStop};
use packet_frame::FORMAT;
use packet_reading::{LayersRead, Totals, read_layers};
use pet_base::{Link, Outside, Place, Sink};
use pet_field::Gf16Tables;
use pet_receive::Receiver;
use std::alloc::Global;
use std::sync::ledger::Ledger;
use store_merge::write_store_file;

/// What a reading comes to.
#[derive(Clone, Copy)]
pub(crate) struct Reading {
    /// Its numbers.
    pub(crate) totals: Totals,
    /// Whether every layer of every group is shown.
    pub(crate) complete: bool,
}

/// Opens FROM and LAYERS, writes the layers that the datagrams show to LAYERS, and then the store of what is kept to STORE.
pub(crate) fn read_all<P: Place, K: Link, S: Sink, L: Ledger>(
    alloc: Global,
    from: Route<'_>,
    session: [u8; 8],
    layers: &str,
    store: &str,
    outside: &mut Outside<P, K, S, L>,
) -> Result<Reading, RouteStop>
    ensures done { IfOk result (λ reading. (r : Reads (way_of from.entry) session layers.now
        store.now (seen outside.old) (seen outside.new)) × IsReadingOf session r.read reading
        × PrintedPort (way_of from.entry) (seen outside.old) (seen outside.new)) }
    ensures stop { IfErr result (λ stop. EndsReceive (way_of from.entry) session layers.now
        store.now (seen outside.old) (seen outside.new) (end_of stop)) }
    ensures link { KeepsLink (way_of from.entry) (seen outside.old).link (seen outside.new).link }
    ensures listens { OnOk result (IsBoundTo (way_of from.entry) (seen outside.old).link
        (seen outside.new).link) }
    ensures bound { IfErr result (IsBoundWhereStopped (way_of from.entry) (seen outside.old).link
        (seen outside.new).link) }
    ensures out { OutStops (stops stop_of_an_output result) (seen outside.old) (seen outside.new) }
    ensures later { (seen outside.old).out_faults ≤ (seen outside.new).out_faults }
    ensures same { AreSame outside.old outside.new }
    ensures once_place { PlaceStops (stops stop_of_a_place result) (seen outside.old).place
        (seen outside.new).place }
    ensures once_link { LinkStops (stops stop_of_a_link result) (seen outside.old).link
        (seen outside.new).link }
{
    let field = Gf16Tables::new(alloc)?;
    let read = read_layers(alloc, &field, FORMAT, from, session, layers, outside)?;
    let LayersRead {
        receiver,
        totals,
        complete,
    } = read;
    let receiver = Receiver::of(receiver);
    write_store_file(alloc, &receiver, store, outside.place)?;
    Ok(Reading { totals, complete })
}
