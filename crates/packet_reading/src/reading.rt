//! Reading the datagrams of a file or of a link, and writing the layers that they show.
ghost use Rattle.std.specs.Prelude.{◌≡◌, ◌↔◌, ℕ, ◌+◌, ◌≤◌, List, [], ◌∷◌, length, vec_len, IsTrue, true, OnOk, OnErr, IfOk, IfErr};
ghost use Rattle.pet_base.specs.Lent.{seen, AreSame};
ghost use Rattle.pet_base.specs.OutsideSeen.{OutsideSeen};
ghost use Rattle.pet_base.specs.declared.limits.TheConstants.{MAX_ENTRY};
ghost use Rattle.pet_base.specs.declared.place.Side.TheVariants.{Written};
ghost use Rattle.pet_base.specs.Causes.{Blames, stops};
ghost use Rattle.pet_base.specs.Seen.{Seen, OnlyWrites, HadFault, PlaceStops};
ghost use Rattle.pet_base.specs.LinkSeen.{LinkStops};
ghost use Rattle.stripe_plan.specs.Sizes.{ArePlanBounds};
ghost use Rattle.packet_frame.specs.Format.{IsFormat};
ghost use Rattle.packet_receiver.specs.Arrivals.{Order, HasKept, kept_set};
ghost use Rattle.packet_receiver.specs.ShownBytes.{IsComplete, shown_in_all};
ghost use Rattle.packet_verdicts.specs.KeptSet.{kept_in_all};
ghost use Rattle.packet_verdicts.specs.Verdicts.{after_in};
ghost use Rattle.outside_files.specs.Inputs.{Licensed};
ghost use Rattle.outside_files.specs.Outputs.{Puts};
ghost use Rattle.outside_files.specs.Failures.{has_failed};
ghost use Rattle.outside_routes.specs.Way.{way_of};
ghost use Rattle.outside_routes.specs.Coming.{coming, HasInput};
ghost use Rattle.outside_routes.specs.RouteFaults.{stop_of_a_place, stop_of_a_link};
ghost use Rattle.packet_met.specs.LayersText.{order_after_in};
ghost use Rattle.packet_met.specs.Records.{IsTextAtIn};
ghost use Rattle.packet_met.specs.Steps.{steps_of_in};
ghost use Rattle.packet_reading.specs.Begun.{IsBoundWhereStopped, LinkReceives, OnlyOpens, OutStops, StopsTold};
ghost use Rattle.packet_reading.specs.Begun.{stop_of_an_output};
ghost use Rattle.packet_reading.specs.Layers.{IsReadingOf, ReadsLayersIn, StopsReadingIn};
ghost use Rattle.packet_reading.specs.Opened.{IsBoundTo, KeepsLink, PrintedPort};
ghost use Rattle.packet_reading.specs.inside.Opened.{Opened};
ghost use Rattle.packet_reading.specs.inside.SoFar.{CanRead, HasReceived, StoppedSoFar, PartOfOne};

use crate::opening::open;
use field_rows::Rows;
use outside_routes::{Route, RouteStop, next_datagram};
use packet_frame::Format;
use packet_met::put_shown;
use packet_receiver::PacketReceiver;
use packet_verdicts::{Verdict, named_group};
use pet_base::{
    Entry, Link, MAX_DATAGRAMS, MAX_ENTRY, MAX_SESSION, Outside, Place, Sink, Steps, Stop,
};
use std::alloc::{AllocError, Global};
use std::sync::ledger::Ledger;

/// The numbers of a reading, as its line tells them.
#[derive(Clone, Copy, Debug, PartialEq, Eq)]
pub struct Totals {
    /// How many datagrams were read, at most 16,777,216.
    pub read: u32,
    /// How many packets are kept.
    pub kept: u32,
    /// How many layers are shown.
    pub shown: u32,
}

/// What a reading comes to.
#[derive(Drop)]
pub struct LayersRead<'f, F: Rows> {
    /// What was kept.
    pub receiver: PacketReceiver<'f, F>,
    /// The numbers of that.
    pub totals: Totals,
    /// Whether every layer of every group is shown.
    pub complete: bool,
}

/// Makes FROM ready, prints the port at which a link receives, makes LAYERS, and writes the layers that the datagrams of FROM show to
/// it: the frames of this format with the session's number, whose words are elements of the field. It reads at most 16,777,216
/// datagrams, and keeps groups that cost at most 536,870,912 bytes. The first failure of a file, of the link or of the output
/// ends it.
pub fn read_layers<'f, P: Place, K: Link, S: Sink, L: Ledger, F: Rows>(
    alloc: Global,
    field: &'f F,
    format: Format,
    from: Route<'_>,
    session: [u8; 8],
    layers: &str,
    outside: &mut Outside<P, K, S, L>,
) -> Result<LayersRead<'f, F>, RouteStop>
    requires format { IsFormat format }
    requires plan { ArePlanBounds format.bounds }
    requires word { format.word ≡ F.coding.width }
    requires points { format.bounds.packets ≤ F.COUNT }
    ensures done { IfOk result (λ l. (r : ReadsLayersIn format F.is_element F.coding (way_of from.entry)
        session layers.now (seen outside.old) (seen outside.new))
        × IsReadingOf format session r.read (kept_set l.receiver) l.totals l.complete
        × PrintedPort (way_of from.entry) (seen outside.old) (seen outside.new)) }
    ensures format { IfOk result (λ l. l.receiver.format ≡ format) }
    ensures stop { IfErr result (StopsReadingIn format F.is_element F.coding (way_of from.entry) session
        layers.now (seen outside.old) (seen outside.new)) }
    ensures link { KeepsLink (way_of from.entry) (seen outside.old).link (seen outside.new).link }
    ensures listens { OnOk result (IsBoundTo (way_of from.entry) (seen outside.old).link
        (seen outside.new).link) }
    ensures bound { IfErr result (IsBoundWhereStopped (way_of from.entry) (seen outside.old).link
        (seen outside.new).link) }
    ensures out { OutStops (stops stop_of_an_output result) (seen outside.old) (seen outside.new) }
    ensures later { (seen outside.old).out_faults ≤ (seen outside.new).out_faults }
    ensures same { AreSame outside.old outside.new }
    ensures once_place { PlaceStops (stops stop_of_a_place result) (seen outside.old).place
        (seen outside.new).place }
    ensures once_link { LinkStops (stops stop_of_a_link result) (seen outside.old).link
        (seen outside.new).link }
{
    let mut buffer = room(alloc)?;
    open(alloc, from, layers, outside)?;
    read_opened(alloc, field, format, from, session, &mut buffer, outside)
}

/// Reads all datagrams of FROM once it is begun and LAYERS is made.
fn read_opened<'f, P: Place, K: Link, S: Sink, L: Ledger, F: Rows>(
    alloc: Global,
    field: &'f F,
    format: Format,
    from: Route<'_>,
    session: [u8; 8],
    buffer: &mut [u8],
    outside: &mut Outside<P, K, S, L>,
) -> Result<LayersRead<'f, F>, RouteStop>
    requires format { IsFormat format }
    requires plan { ArePlanBounds format.bounds }
    requires word { format.word ≡ F.coding.width }
    requires points { format.bounds.packets ≤ F.COUNT }
    requires input { HasInput (way_of from) (seen outside.old).place }
    requires output { (seen outside.old).place.has_output ≡ true }
    requires room { MAX_ENTRY ≤ length buffer.old }
    ensures done { IfOk result (λ l. (layers : List ℕ) (before : OutsideSeen)
        → Opened (way_of from.entry) layers before (seen outside.old)
        → OnlyOpens (way_of from.entry) before (seen outside.old)
        → (r : ReadsLayersIn format F.is_element F.coding (way_of from.entry) session layers before
        (seen outside.new)) × IsReadingOf format session r.read (kept_set l.receiver) l.totals l.complete
        × PrintedPort (way_of from.entry) before (seen outside.new)) }
    ensures format { IfOk result (λ l. l.receiver.format ≡ format) }
    ensures stop { IfErr result (λ stop. (layers : List ℕ) (before : OutsideSeen)
        → Opened (way_of from.entry) layers before (seen outside.old)
        → OnlyOpens (way_of from.entry) before (seen outside.old)
        → StopsReadingIn format F.is_element F.coding (way_of from.entry) session layers before
        (seen outside.new) stop) }
    ensures link { LinkReceives (way_of from.entry) (seen outside.old).link (seen outside.new).link }
    ensures link_later { (seen outside.old).link.faults ≤ (seen outside.new).link.faults }
    ensures out { OutStops (stops stop_of_an_output result) (seen outside.old) (seen outside.new) }
    ensures told { StopsTold stop_of_a_place stop_of_a_link result (seen outside.old) (seen outside.new) }
    ensures same { AreSame outside.old outside.new }
{
    let mut receiver = PacketReceiver::new(alloc, field, format, session, MAX_SESSION);
    let read = receive_all(
        from,
        outside.place,
        outside.link,
        &mut receiver,
        buffer,
        outside.steps,
    )?;
    Ok(reading_of(receiver, read))
}

/// What so many datagrams come to, by what is kept of them.
fn reading_of<'f, F: Rows>(receiver: PacketReceiver<'f, F>, read: u32) -> LayersRead<'f, F>
    ensures receiver { result.receiver ≡ receiver.entry }
    ensures read { result.totals.read ≡ read }
    ensures kept { result.totals.kept ≡ kept_in_all (kept_set receiver.entry) }
    ensures shown { result.totals.shown ≡ shown_in_all (kept_set receiver.entry) }
    ensures complete { IsTrue result.complete ↔ IsComplete (kept_set receiver.entry) }
{
    let totals = Totals {
        read,
        kept: receiver.kept(),
        shown: receiver.shown(),
    };
    let complete = receiver.complete();
    LayersRead {
        receiver,
        totals,
        complete,
    }
}

/// Room for the longest datagram.
fn room(alloc: Global) -> Result<Vec<u8>, AllocError>
    ensures { IfOk result (λ room. vec_len room ≡ MAX_ENTRY) }
{
    vec![in alloc; 0u8; usize::from(MAX_ENTRY)]
}

/// Receives all datagrams of FROM, and puts the layers that they show to the output. It says how many it read, at most
/// 16,777,216.
fn receive_all<P: Place, K: Link, L: Ledger, F: Rows>(
    from: Route<'_>,
    place: &mut P,
    link: &mut K,
    receiver: &mut PacketReceiver<'_, F>,
    buffer: &mut [u8],
    steps: &mut Steps<L>,
) -> Result<u32, RouteStop>
    requires input { HasInput (way_of from) (P.seen place.old) }
    requires output { (P.seen place.old).has_output ≡ true }
    requires room { MAX_ENTRY ≤ length buffer.old }
    requires held { HasKept F.is_element F.coding receiver.old [] }
    requires ready { CanRead F.coding receiver.old }
    ensures done { IfOk result (λ n. HasReceived receiver.old.format F.is_element F.coding (kept_set receiver.old)
        n (P.seen place.old) (P.seen place.new)
        (coming (way_of from.entry) (P.seen place.old) (K.seen link.old))
        (coming (way_of from.entry) (P.seen place.new) (K.seen link.new)) receiver.new steps.old
        steps.new) }
    ensures stopped { IfErr result (StoppedSoFar receiver.old.format F.is_element F.coding (way_of from.entry)
        (kept_set receiver.old) (P.seen place.old) (P.seen place.new) (K.seen link.old)
        (K.seen link.new)) }
    ensures format { receiver.new.format ≡ receiver.old.format }
    ensures link { LinkReceives (way_of from.entry) (K.seen link.old) (K.seen link.new) }
    ensures place_later { (P.seen place.old).faults ≤ (P.seen place.new).faults }
    ensures link_later { (K.seen link.old).faults ≤ (K.seen link.new).faults }
    ensures once_place { PlaceStops (stops stop_of_a_place result) (P.seen place.old)
        (P.seen place.new) }
    ensures once_link { LinkStops (stops stop_of_a_link result) (K.seen link.old)
        (K.seen link.new) }
{
    for turn in 0..MAX_DATAGRAMS {
        match next_datagram(from, place, link, buffer)? {
            Entry::End => return Ok(turn),
            Entry::Datagram(len) => {
                receive_one(place, receiver, turn + 1, &buffer[..len], steps)?;
            }
        }
    }
    Ok(MAX_DATAGRAMS)
}

/// Hands a datagram to the receiver, and puts the layers that it shows.
fn receive_one<P: Place, L: Ledger, F: Rows>(
    place: &mut P,
    receiver: &mut PacketReceiver<'_, F>,
    arrival: u32,
    datagram: &[u8],
    steps: &mut Steps<L>,
) -> Result<(), Stop>
    requires output { (P.seen place.old).has_output ≡ true }
    requires held { (order : Order) × HasKept F.is_element F.coding receiver.old order }
    requires ready { CanRead F.coding receiver.old }
    ensures puts { OnOk result ((text : List ℕ) × IsTextAtIn F.is_element F.coding receiver.old.format receiver.old
        arrival datagram.now text × Puts text (P.seen place.old) (P.seen place.new)) }
    ensures set { OnOk result (kept_set receiver.new
        ≡ after_in receiver.old.format (kept_set receiver.old) datagram.now) }
    ensures held { OnOk result ((order : Order) → HasKept F.is_element F.coding receiver.old order
        → HasKept F.is_element F.coding receiver.new
        (order_after_in receiver.old.format (kept_set receiver.old) order datagram.now)) }
    ensures cost { OnOk result (steps.new ≤ steps.old
        + steps_of_in receiver.old.format (kept_set receiver.old) datagram.now) }
    ensures ready { CanRead F.coding receiver.new }
    ensures format { receiver.new.format ≡ receiver.old.format }
    ensures part { OnErr result (PartOfOne receiver.old.format F.is_element F.coding receiver.old arrival
        datagram.now (P.seen place.old) (P.seen place.new)) }
    ensures others { OnlyWrites (P.seen place.old) (P.seen place.new) }
    ensures later { (P.seen place.old).faults ≤ (P.seen place.new).faults }
    ensures cause { IfErr result (Licensed (HadFault (P.seen place.old) (P.seen place.new)
        (Blames Written (P.seen place.old).target))) }
    ensures once { PlaceStops (stops has_failed result) (P.seen place.old) (P.seen place.new) }
{
    let verdict = receiver.accept(datagram, steps)?;
    if let Verdict::Kept(shown) = verdict {
        let group = named_group(datagram);
        return Ok(put_shown(place, receiver, arrival, group, shown)?);
    }
    Ok(())
}
