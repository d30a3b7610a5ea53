//! The commands that read and send datagrams: the run of each, and the status of each of its ends.
ghost use Rattle.std.specs.Prelude.{◌≡◌, ◌≢◌};
ghost use Rattle.pet_base.specs.Lent.{seen, AreSame};
ghost use Rattle.pet_text.specs.declared.words.Command.TheVariants.{Receive, Breceive, Relay, Repair};
ghost use Rattle.pet_tool.specs.Commands.Routes.{status_of_receive, status_of_breceive, status_of_relay, status_of_repair};
ghost use Rattle.pet_tool.specs.inside.EndsAs.{EndsAs};

use crate::commands::{End, name_of};
use command_receive::{ReceiveEnd, receive};
use pet_base::{Link, Outside, Place, Sink};
use pet_byte::{ByteEnd, breceive_loop};
use pet_repair::{RelayEnd, RepairEnd, relay_loop, repair_loop};
use pet_text::{End as EndWord, Name, Status};
use std::alloc::Global;
use std::sync::ledger::Ledger;

/// Runs `receive`.
pub(crate) fn run_receive<P: Place, K: Link, S: Sink, L: Ledger>(
    alloc: Global,
    from: &EndWord,
    session: [u8; 8],
    layers: &Name,
    store: &Name,
    outside: &mut Outside<P, K, S, L>,
) -> End
    ensures ends { EndsAs (Receive from.now session layers.now store.now) (seen outside.old) result (seen outside.new) }
    ensures known { result ≢ End.Usage }
    ensures same { AreSame outside.old outside.new }
{
    let (layers, store) = (layers.as_str(), store.as_str());
    let from = from.route();
    End::Receive(receive(alloc, from, session, layers, store, outside))
}

/// The status of each end of `receive`.
pub(crate) fn receive_status(end: &ReceiveEnd) -> Status
    ensures status { result ≡ status_of_receive end.now }
    ensures known { result ≢ Status.Usage }
{
    match end {
        ReceiveEnd::Done(_) => Status::Done,
        ReceiveEnd::NoMemory => Status::NoMemory,
        ReceiveEnd::PlaceFault => Status::PlaceFault,
        ReceiveEnd::LinkFault => Status::LinkFault,
        ReceiveEnd::OutFault => Status::OutFault,
        ReceiveEnd::Incomplete(_) => Status::Incomplete,
        ReceiveEnd::TurnsSpent(_) => Status::TurnsSpent,
    }
}

/// Runs `breceive`.
pub(crate) fn run_breceive<P: Place, K: Link, S: Sink, L: Ledger>(
    alloc: Global,
    from: &EndWord,
    session: [u8; 8],
    layers: &Name,
    outside: &mut Outside<P, K, S, L>,
) -> End
    ensures ends { EndsAs (Breceive from.now session layers.now) (seen outside.old) result (seen outside.new) }
    ensures known { result ≢ End.Usage }
    ensures same { AreSame outside.old outside.new }
{
    let layers = layers.as_str();
    let from = from.route();
    let (from, udp) = name_of(from);
    End::Breceive(breceive_loop(
        alloc,
        from,
        udp,
        session,
        layers,
        outside.place,
        outside.link,
        outside.out,
        outside.steps,
    ))
}

/// The status of each end of `breceive`.
pub(crate) fn breceive_status(end: &ByteEnd) -> Status
    ensures status { result ≡ status_of_breceive end.now }
    ensures known { result ≢ Status.Usage }
{
    match end {
        ByteEnd::Done { .. } => Status::Done,
        ByteEnd::NoMemory => Status::NoMemory,
        ByteEnd::PlaceFault => Status::PlaceFault,
        ByteEnd::LinkFault => Status::LinkFault,
        ByteEnd::OutFault => Status::OutFault,
        ByteEnd::Incomplete { .. } => Status::Incomplete,
        ByteEnd::TurnsSpent { .. } => Status::TurnsSpent,
    }
}

/// Runs `relay`.
pub(crate) fn run_relay<P: Place, K: Link, S: Sink, L: Ledger>(
    alloc: Global,
    from: &EndWord,
    session: [u8; 8],
    to: &EndWord,
    outside: &mut Outside<P, K, S, L>,
) -> End
    ensures ends { EndsAs (Relay from.now session to.now) (seen outside.old) result (seen outside.new) }
    ensures known { result ≢ End.Usage }
    ensures same { AreSame outside.old outside.new }
{
    let from = from.route();
    let to = to.route();
    let (source, from_udp) = name_of(from);
    let (target, to_udp) = name_of(to);
    End::Relay(relay_loop(
        alloc,
        source,
        from_udp,
        session,
        target,
        to_udp,
        outside.place,
        outside.link,
        outside.out,
        outside.steps,
    ))
}

/// The status of each end of `relay`.
pub(crate) fn relay_status(end: &RelayEnd) -> Status
    ensures status { result ≡ status_of_relay end.now }
    ensures known { result ≢ Status.Usage }
{
    match end {
        RelayEnd::Done { .. } => Status::Done,
        RelayEnd::NoMemory => Status::NoMemory,
        RelayEnd::PlaceFault => Status::PlaceFault,
        RelayEnd::LinkFault => Status::LinkFault,
        RelayEnd::OutFault => Status::OutFault,
        RelayEnd::Incomplete { .. } => Status::Incomplete,
        RelayEnd::TurnsSpent { .. } => Status::TurnsSpent,
        RelayEnd::Unlike(group, number) => Status::Unlike(*group, *number),
    }
}

/// Runs `repair`.
pub(crate) fn run_repair<P: Place, K: Link, S: Sink, L: Ledger>(
    alloc: Global,
    store: &Name,
    to: &EndWord,
    outside: &mut Outside<P, K, S, L>,
) -> End
    ensures ends { EndsAs (Repair store.now to.now) (seen outside.old) result (seen outside.new) }
    ensures known { result ≢ End.Usage }
    ensures same { AreSame outside.old outside.new }
{
    let store = store.as_str();
    let to = to.route();
    let (to, udp) = name_of(to);
    End::Repair(repair_loop(
        alloc,
        store,
        to,
        udp,
        outside.place,
        outside.link,
        outside.steps,
    ))
}

/// The status of each end of `repair`.
pub(crate) fn repair_status(end: &RepairEnd) -> Status
    ensures status { result ≡ status_of_repair end.now }
    ensures known { result ≢ Status.Usage }
{
    match end {
        RepairEnd::Done { .. } => Status::Done,
        RepairEnd::NoMemory => Status::NoMemory,
        RepairEnd::PlaceFault => Status::PlaceFault,
        RepairEnd::LinkFault => Status::LinkFault,
        RepairEnd::BadStore(at, kind) => Status::BadStore(1, *at, *kind),
        RepairEnd::Unlike(group, number) => Status::Unlike(*group, *number),
    }
}
