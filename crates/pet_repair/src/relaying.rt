//! Reading the datagrams of a file or of a link, and sending what each gives.
ghost use Rattle.std.specs.Prelude.{◌≡◌, ◌↔◌, ◌≤◌, ℕ, [], length, IsTrue, IfOk, IfErr, OnOk, vec_len};
ghost use Rattle.pet_base.specs.declared.limits.TheConstants.{MAX_ENTRY};
ghost use Rattle.pet_base.specs.Causes.{stops};
ghost use Rattle.pet_base.specs.Lent.{seen, AreSame};
ghost use Rattle.pet_base.specs.LinkSeen.{LinkStops};
ghost use Rattle.pet_base.specs.OutsideSeen.{OutsideSeen};
ghost use Rattle.pet_base.specs.Seen.{PlaceStops};
ghost use Rattle.outside_routes.specs.Coming.{HasInput};
ghost use Rattle.outside_routes.specs.Sending.{routes, IsOpen};
ghost use Rattle.outside_routes.specs.Way.{way_of};
ghost use Rattle.packet_reading.specs.Begun.{Begins, OutStops, StopsTold};
ghost use Rattle.packet_reading.specs.Opened.{IsBoundTo, PrintedPort};
ghost use Rattle.packet_verdicts.specs.KeptSet.{kept_in_all};
ghost use Rattle.pet_receive.specs.Arrivals.{kept_set};
ghost use Rattle.pet_receive.specs.ShownBytes.{IsComplete};
ghost use Rattle.pet_repair.specs.Relays.{Relays, EndsRelay, IsBoundAtRelayEnd, KeepsLinkBetween};
ghost use Rattle.pet_repair.specs.inside.Arrivals.{StandsIn, relay_of_place, relay_of_link, relay_of_output};
ghost use Rattle.pet_repair.specs.inside.RelayEnds.{end_of_relay, IsRelayingOf, OnlyBegins};
ghost use Rattle.pet_repair.specs.inside.RelaySoFar.{KeepsAddresses, RelayedAll, StopsRelaying};

use crate::arriving::{RelayStop, relay_one};
use outside_routes::{Route, next_datagram, open_route};
use packet_reading::begin;
use pet_base::{Entry, Link, MAX_DATAGRAMS, MAX_ENTRY, MAX_SESSION, Outside, Place, Sink, Steps};
use pet_field::Gf16Tables;
use pet_receive::Receiver;
use std::alloc::{AllocError, Global};
use std::sync::ledger::Ledger;

/// What a relaying comes to.
#[derive(Clone, Copy)]
pub(crate) struct Relaying {
    /// How many datagrams were read, at most 16,777,216.
    pub(crate) read: u32,
    /// How many were sent: as many as are kept.
    pub(crate) sent: u32,
    /// Whether every layer of every group is shown.
    pub(crate) complete: bool,
}

/// Begins FROM, makes TO ready, and relays all datagrams of FROM.
pub(crate) fn relay<P: Place, K: Link, S: Sink, L: Ledger>(
    alloc: Global,
    from: Route<'_>,
    session: [u8; 8],
    to: Route<'_>,
    outside: &mut Outside<P, K, S, L>,
) -> Result<Relaying, RelayStop>
    ensures done { IfOk result (λ relaying. (r : Relays (way_of from.entry) session (way_of to.entry)
        (seen outside.old) (seen outside.new)) × IsRelayingOf r relaying
        × PrintedPort (way_of from.entry) (seen outside.old) (seen outside.new)) }
    ensures stopped { IfErr result (λ stop. EndsRelay (way_of from.entry) session (way_of to.entry)
        (seen outside.old) (seen outside.new) (end_of_relay stop)) }
    ensures listens { OnOk result (IsBoundTo (way_of from.entry) (seen outside.old).link
        (seen outside.new).link) }
    ensures bound { IfErr result (λ stop. IsBoundAtRelayEnd (way_of from.entry) (seen outside.old).link
        (seen outside.new).link (end_of_relay stop)) }
    ensures kept { KeepsLinkBetween (way_of from.entry) (way_of to.entry) (seen outside.old).link
        (seen outside.new).link }
    ensures told { StopsTold relay_of_place relay_of_link result (seen outside.old) (seen outside.new) }
    ensures out { OutStops (stops relay_of_output result) (seen outside.old) (seen outside.new) }
    ensures same { AreSame outside.old outside.new }
{
    let mut buffer = room(alloc)?;
    let field = Gf16Tables::new(alloc)?;
    begin(alloc, from, outside)?;
    relay_begun(alloc, &field, from, session, to, &mut buffer, outside)
}

/// Room for the longest datagram.
fn room(alloc: Global) -> Result<Vec<u8>, AllocError>
    ensures { IfOk result (λ room. vec_len room ≡ MAX_ENTRY) }
{
    vec![in alloc; 0u8; usize::from(MAX_ENTRY)]
}

/// Makes TO ready, once FROM is begun, and relays all datagrams of FROM.
fn relay_begun<P: Place, K: Link, S: Sink, L: Ledger>(
    alloc: Global,
    field: &Gf16Tables,
    from: Route<'_>,
    session: [u8; 8],
    to: Route<'_>,
    buffer: &mut [u8],
    outside: &mut Outside<P, K, S, L>,
) -> Result<Relaying, RelayStop>
    requires input { HasInput (way_of from) (seen outside.old).place }
    requires room { MAX_ENTRY ≤ length buffer.old }
    ensures done { IfOk result (λ relaying. (before : OutsideSeen)
        → Begins (way_of from.entry) before (seen outside.old)
        → OnlyBegins (way_of from.entry) before (seen outside.old)
        → (r : Relays (way_of from.entry) session (way_of to.entry) before (seen outside.new))
        × IsRelayingOf r relaying × PrintedPort (way_of from.entry) before (seen outside.new)) }
    ensures stopped { IfErr result (λ stop. (before : OutsideSeen)
        → Begins (way_of from.entry) before (seen outside.old)
        → OnlyBegins (way_of from.entry) before (seen outside.old)
        → EndsRelay (way_of from.entry) session (way_of to.entry) before (seen outside.new)
        (end_of_relay stop)) }
    ensures kept { KeepsLinkBetween (way_of from.entry) (way_of to.entry) (seen outside.old).link
        (seen outside.new).link }
    ensures bound { (seen outside.new).link.bound ≡ (seen outside.old).link.bound }
    ensures out { OutStops (stops relay_of_output result) (seen outside.old) (seen outside.new) }
    ensures told { StopsTold relay_of_place relay_of_link result (seen outside.old) (seen outside.new) }
    ensures same { AreSame outside.old outside.new }
{
    open_route(to, outside.place, outside.link)?;
    let mut receiver = Receiver::new(alloc, field, session, MAX_SESSION);
    let read = relay_all(
        alloc,
        field,
        from,
        to,
        &mut receiver,
        buffer,
        outside.place,
        outside.link,
        outside.steps,
    )?;
    Ok(relaying_of(&receiver, read))
}

/// What so many datagrams come to, by what is kept of them.
fn relaying_of(receiver: &Receiver<'_, Gf16Tables>, read: u32) -> Relaying
    ensures read { result.read ≡ read }
    ensures sent { result.sent ≡ kept_in_all (kept_set receiver.now) }
    ensures complete { IsTrue result.complete ↔ IsComplete (kept_set receiver.now) }
{
    Relaying {
        read,
        sent: receiver.kept(),
        complete: receiver.complete(),
    }
}

/// Relays all datagrams of FROM. It says how many it read, at most 16,777,216.
fn relay_all<P: Place, K: Link, L: Ledger>(
    alloc: Global,
    field: &Gf16Tables,
    from: Route<'_>,
    to: Route<'_>,
    receiver: &mut Receiver<'_, Gf16Tables>,
    buffer: &mut [u8],
    place: &mut P,
    link: &mut K,
    steps: &mut Steps<L>,
) -> Result<u32, RelayStop>
    requires input { HasInput (way_of from) (P.seen place.old) }
    requires open { IsOpen (way_of to) (routes P.Place K.Link place.old link.old) }
    requires room { MAX_ENTRY ≤ length buffer.old }
    requires stands { StandsIn receiver.old [] }
    ensures done { IfOk result (λ n. RelayedAll (way_of from.entry) (way_of to.entry) receiver.old n
        (routes P.Place K.Link place.old link.old) (routes P.Place K.Link place.new link.new) receiver.new) }
    ensures stopped { IfErr result (StopsRelaying (way_of from.entry) (way_of to.entry) receiver.old
        (routes P.Place K.Link place.old link.old) (routes P.Place K.Link place.new link.new)) }
    ensures keeps { KeepsAddresses (K.seen link.old) (K.seen link.new) }
    ensures kept { KeepsLinkBetween (way_of from.entry) (way_of to.entry) (K.seen link.old)
        (K.seen link.new) }
    ensures place_later { (P.seen place.old).faults ≤ (P.seen place.new).faults }
    ensures link_later { (K.seen link.old).faults ≤ (K.seen link.new).faults }
    ensures once_place { PlaceStops (stops relay_of_place result) (P.seen place.old)
        (P.seen place.new) }
    ensures once_link { LinkStops (stops relay_of_link result) (K.seen link.old)
        (K.seen link.new) }
{
    let mut entry = Vec::new(alloc);
    for turn in 0..MAX_DATAGRAMS {
        match next_datagram(from, place, link, buffer)? {
            Entry::End => return Ok(turn),
            Entry::Datagram(len) => relay_one(
                alloc,
                field,
                to,
                receiver,
                &buffer[..len],
                &mut entry,
                place,
                link,
                steps,
            )?,
        }
    }
    Ok(MAX_DATAGRAMS)
}
