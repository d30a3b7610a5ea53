//! Sums over the open groups of a receiver.
ghost use Rattle.std.specs.Prelude.{◌≡◌, ◌^◌, ◌<◌, sum_by};
ghost use Rattle.std.specs.Map.{values_of};
ghost use Rattle.packet_receiver.specs.inside.Counted.{counted};

use crate::has_packets::HasPackets;
use packet_set::PacketSet;
use packet_verdicts::{one_if_whole, shown_layers};
use std::collections::BTreeMap;

/// What is counted of each group.
#[derive(Clone, Copy)]
pub(crate) enum Count {
    /// The packets that are kept.
    Packets,
    /// The layers that are shown.
    Shown,
    /// One where every layer is shown.
    Whole,
}

/// The sum over the groups.
pub(crate) fn total<G: HasPackets>(what: Count, groups: &BTreeMap<u32, G>) -> u32
    requires { sum_by (λ g. counted what (G.kept g)) (values_of groups.now.entries) < 2 ^ 32 }
    ensures { result ≡ sum_by (λ g. counted what (G.kept g)) (values_of groups.now.entries) }
{
    let mut total: u32 = 0;
    for open in groups.values() {
        total += count_one(what, open.packets());
    }
    total
}

/// What is counted of one group.
fn count_one(what: Count, packets: &PacketSet) -> u32
    ensures { result ≡ counted what packets.now }
{
    match what {
        Count::Packets => u32::from(packets.len()),
        Count::Shown => shown_layers(packets),
        Count::Whole => one_if_whole(packets),
    }
}
