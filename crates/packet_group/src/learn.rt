//! One packet more for what is known of the stripes of a group.
ghost use Rattle.std.specs.Prelude.{◌≡◌, ℕ, ◌+◌, ◌*◌, ◌<◌, ◌≤◌, length, None, IfSome, vec_capacity};
ghost use Rattle.stripe_plan.specs.Layers.{needs_of, plan_stripes};
ghost use Rattle.stripe_plan.specs.Sizes.{IsTable};
ghost use Rattle.pet_interp.specs.Progressive.{step_bound, lengths_of};
ghost use Rattle.packet_session.specs.Session.{IsMessage};
ghost use Rattle.packet_group.specs.OpenGroup.{layers_of};
ghost use Rattle.packet_group.specs.Written.{whole_message};
ghost use Rattle.packet_group.specs.inside.Learning.{CanLearn, IsOneMore, IsLeft, Learns};

use crate::write::write_shown;
use field_rows::Rows;
use packet_set::PacketSet;
use pet_base::Steps;
use pet_interp::Progress;
use std::sync::ledger::Ledger;

/// Adds the point `x` of the packet that was put last to the state, where it is not given back, and writes the stripes of
/// each layer that is shown with this packet. The state is given back once every stripe is known.
pub(crate) fn learn<'f, F: Rows, L: Ledger>(
    field: &F,
    packets: &PacketSet,
    x: F::Elem,
    payload: &[u8],
    progress: Option<Progress<'f, F>>,
    message: &mut Vec<u8>,
    steps: &mut Steps<L>,
) -> Option<Progress<'f, F>>
    requires table { IsTable packets.now.header.table.packets (layers_of packets.now) }
    requires point { F.is_element x }
    requires width { length payload.now ≡ length (plan_stripes (layers_of packets.now)) * F.coding.width }
    requires can { IfSome progress (CanLearn F.is_element F.coding (layers_of packets.now) x) }
    requires room { length (needs_of (layers_of packets.now)) * F.coding.width ≤ vec_capacity message.old }
    requires message { IsMessage F.coding.width (layers_of packets.now)
        (whole_message F.coding.width (layers_of packets.now) message.old.items) }
    ensures learns { Learns F.is_element F.coding (layers_of packets.now) x payload.now progress.entry
        result message.old.items message.new.items }
    ensures room { vec_capacity message.old ≤ vec_capacity message.new }
    ensures cost { IfSome progress.entry (λ held. steps.new ≤ steps.old
        + step_bound held.met (lengths_of held)) }
    ensures idle { progress.entry ≡ None → steps.new ≡ steps.old }
{
    match progress {
        Some(state) => learn_more(field, packets, x, payload, state, message, steps),
        None => None,
    }
}

/// Adds the point `x` to the state, and writes the stripes of each layer that is shown with its packet.
fn learn_more<'f, F: Rows, L: Ledger>(
    field: &F,
    packets: &PacketSet,
    x: F::Elem,
    payload: &[u8],
    state: Progress<'f, F>,
    message: &mut Vec<u8>,
    steps: &mut Steps<L>,
) -> Option<Progress<'f, F>>
    requires table { IsTable packets.now.header.table.packets (layers_of packets.now) }
    requires point { F.is_element x }
    requires width { length payload.now ≡ length (plan_stripes (layers_of packets.now)) * F.coding.width }
    requires can { CanLearn F.is_element F.coding (layers_of packets.now) x state }
    requires room { length (needs_of (layers_of packets.now)) * F.coding.width ≤ vec_capacity message.old }
    requires message { IsMessage F.coding.width (layers_of packets.now)
        (whole_message F.coding.width (layers_of packets.now) message.old.items) }
    ensures learns { Learns F.is_element F.coding (layers_of packets.now) x payload.now (Some state.entry)
        result message.old.items message.new.items }
    ensures room { vec_capacity message.old ≤ vec_capacity message.new }
    ensures cost { steps.new ≤ steps.old
        + step_bound (state.entry).met (lengths_of state.entry) }
{
    let mut state = state;
    state.add(x, payload, steps);
    write_shown(field, packets, &state, message);
    unless_whole(state)
}

/// The state, unless every stripe is known.
fn unless_whole<F: Rows>(state: Progress<'_, F>) -> Option<Progress<'_, F>>
    ensures { IsLeft state.entry result }
{
    if state.is_whole() { None } else { Some(state) }
}
