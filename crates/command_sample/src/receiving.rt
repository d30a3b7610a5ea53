//! The packets that arrive, handed to the receiver.
ghost use Rattle.std.specs.Prelude.{◌≡◌, ◌+◌, ◌<◌, ◌≤◌, ◌++◌, List, [], ◌∷◌, length, OnOk, OnErr, IfOk};
ghost use Rattle.packet_session.specs.Session.{Session};
ghost use Rattle.packet_met.specs.Met.{Pair};
ghost use Rattle.command_sample.specs.Arrivals.{arrivals_in, arrivals_of};
ghost use Rattle.command_sample.specs.SampleSteps.{arrival_steps, steps_behind};
ghost use Rattle.command_sample.specs.inside.Making.{IsMade, session_made};
ghost use Rattle.stripe_plan.specs.Layers.{needs_of};
ghost use Rattle.command_sample.specs.inside.Receiving.{Accepts, HasReceived, IsPacketText, IsSource};

use crate::made::Made;
use crate::order::arrival_order;
use layer_split::message;
use packet_frame::Header;
use packet_verdicts::Verdict;
use pet_base::{NoMemory, Steps};
use pet_encode::Encoder;
use pet_field::Gf16Tables;
use pet_receive::Receiver;
use std::alloc::Global;
use std::sync::ledger::Ledger;

/// Hands the packets that arrive to a receiver that has kept nothing, group by group.
pub(crate) fn receive_all<L: Ledger>(
    alloc: Global,
    field: &Gf16Tables,
    made: &Made,
    receiver: &mut Receiver<'_, Gf16Tables>,
    steps: &mut Steps<L>,
) -> Result<(), NoMemory>
    requires made { IsMade made.now }
    requires empty { HasReceived (session_made made.now) [] receiver.old }
    ensures received { OnOk result (HasReceived (session_made made.now)
        (arrivals_of (length made.now.cuts.items)) receiver.new) }
    ensures cost { steps.new ≤ steps.old + steps_behind (session_made made.now) []
        (arrivals_of (length made.now.cuts.items)) }
{
    for group in 0..made.cuts.len() {
        receive_group(alloc, field, made, group, receiver, steps)?;
    }
    Ok(())
}

/// Hands the packets of a group that arrive to the receiver.
fn receive_group<L: Ledger>(
    alloc: Global,
    field: &Gf16Tables,
    made: &Made,
    group: usize,
    receiver: &mut Receiver<'_, Gf16Tables>,
    steps: &mut Steps<L>,
) -> Result<(), NoMemory>
    requires made { IsMade made.now }
    requires group { group < length made.now.cuts.items }
    ensures received { OnOk result ((pairs : List Pair) → HasReceived (session_made made.now) pairs receiver.old
        → HasReceived (session_made made.now) (pairs ++ arrivals_in group) receiver.new) }
    ensures cost { (pairs : List Pair) → HasReceived (session_made made.now) pairs receiver.old
        → steps.new ≤ steps.old + steps_behind (session_made made.now) pairs (arrivals_in group) }
{
    let encoder = encoder_of(alloc, field, made, group)?;
    hand_group(alloc, &encoder, receiver, steps)
}

/// The encoder of a group of the session.
fn encoder_of<'f>(
    alloc: Global,
    field: &'f Gf16Tables,
    made: &Made,
    group: usize,
) -> Result<Encoder<'f, Gf16Tables>, NoMemory>
    requires made { IsMade made.now }
    requires group { group < length made.now.cuts.items }
    ensures source { IfOk result (λ encoder. IsSource (session_made made.now) encoder) }
    ensures group { IfOk result (λ encoder. encoder.header.group ≡ group) }
    ensures packets { IfOk result (λ encoder. encoder.header.table.packets ≡ 100) }
{
    let mut bytes = Vec::new(alloc);
    message(&made.stream, &made.cuts[group], &mut bytes)?;
    let header = Header {
        session: made.plan.number,
        groups: made.cuts.len() as u32,
        group: group as u32,
        table: made.plan.tables[group].clone()?,
    };
    Encoder::new(alloc, field, header, &bytes)
}

/// Hands the packets of the encoder's group that arrive to the receiver, in order.
fn hand_group<L: Ledger>(
    alloc: Global,
    encoder: &Encoder<'_, Gf16Tables>,
    receiver: &mut Receiver<'_, Gf16Tables>,
    steps: &mut Steps<L>,
) -> Result<(), NoMemory>
    requires packets { encoder.now.header.table.packets ≡ 100 }
    ensures received { OnOk result ((s : Session) (pairs : List Pair) → IsSource s encoder.now
        → HasReceived s pairs receiver.old
        → HasReceived s (pairs ++ arrivals_in encoder.now.header.group) receiver.new) }
    ensures cost { (s : Session) (pairs : List Pair) → IsSource s encoder.now → HasReceived s pairs receiver.old
        → steps.new ≤ steps.old + steps_behind s pairs (arrivals_in encoder.now.header.group) }
{
    let order = arrival_order();
    for place in 0..order.len() {
        hand_on(alloc, encoder, order[place], receiver, steps)?;
    }
    Ok(())
}

/// Hands a packet of the encoder's group to the receiver.
fn hand_on<L: Ledger>(
    alloc: Global,
    encoder: &Encoder<'_, Gf16Tables>,
    number: u16,
    receiver: &mut Receiver<'_, Gf16Tables>,
    steps: &mut Steps<L>,
) -> Result<(), NoMemory>
    requires number { number < encoder.now.header.table.packets }
    ensures received { OnOk result ((s : Session) (pairs : List Pair) → IsSource s encoder.now
        → HasReceived s pairs receiver.old
        → HasReceived s (pairs ++ (encoder.now.header.group, number) ∷ []) receiver.new) }
    ensures cost { (s : Session) (pairs : List Pair) → IsSource s encoder.now → HasReceived s pairs receiver.old
        → steps.new ≤ steps.old + arrival_steps s pairs (encoder.now.header.group, number) }
{
    let datagram = datagram_of(alloc, encoder, number, steps)?;
    accept(receiver, &datagram, steps)?;
    Ok(())
}

/// The datagram of a packet of the encoder's group.
fn datagram_of<L: Ledger>(
    alloc: Global,
    encoder: &Encoder<'_, Gf16Tables>,
    number: u16,
    steps: &mut Steps<L>,
) -> Result<Vec<u8>, NoMemory>
    requires number { number < encoder.now.header.table.packets }
    ensures packet { IfOk result (λ bytes. IsPacketText encoder.now number bytes.items) }
    ensures cost { steps.new ≤ steps.old + length (needs_of encoder.now.header.table.layers) }
{
    let mut datagram = Vec::new(alloc);
    encoder.packet(number, &mut datagram, steps)?;
    Ok(datagram)
}

/// Has the receiver judge a datagram.
fn accept<L: Ledger>(
    receiver: &mut Receiver<'_, Gf16Tables>,
    datagram: &[u8],
    steps: &mut Steps<L>,
) -> Result<Verdict, NoMemory>
    ensures accepts { OnOk result (Accepts receiver.old datagram.now receiver.new steps.old
        steps.new) }
    ensures idle { OnErr result (steps.new ≡ steps.old) }
{
    receiver.accept(datagram, steps)
}
