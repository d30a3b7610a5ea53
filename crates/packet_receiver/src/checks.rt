//! Why a receiver cannot take in what another has kept.
ghost use Rattle.std.specs.Prelude.{◌≡◌, ◌+◌, ◌≤◌, is_none, None, Some, option_copied, IfOk, OnOk, IfErr, All, sum_by};
ghost use Rattle.packet_verdicts.specs.KeptSet.{cost_in};
ghost use Rattle.packet_verdicts.specs.Union.{first_past};
ghost use Rattle.packet_receiver.specs.inside.Joining.{packets_by, packets_at, clash_from, new_of, cost_beside};

use crate::has_packets::HasPackets;
use packet_session::group_cost;
use packet_set::PacketSet;
use packet_verdicts::{Absorb, clash_in};
use std::collections::BTreeMap;

/// The first packet of the other's, by group, then number, that clashes with what is kept here, where `told` is the
/// number of groups that the packets here tell.
pub(crate) fn find_clash<G: HasPackets>(
    told: Option<u32>,
    groups: &BTreeMap<u32, G>,
    others: &BTreeMap<u32, G>,
) -> Option<Absorb>
    ensures { result ≡ clash_from told (packets_by G.kept groups.now.entries)
        (packets_by G.kept others.now.entries) }
{
    for (group, other) in others.iter() {
        if let Some(number) = clash_in(told, packets_in(groups, *group), other.packets()) {
            return Some(Absorb::Clash(*group, number));
        }
    }
    None
}

/// What the open groups cost with the other's that are not open here, or the first of these with which they would cost
/// more than the limit.
pub(crate) fn cost_with<G: HasPackets>(
    groups: &BTreeMap<u32, G>,
    others: &BTreeMap<u32, G>,
    limit: u64,
    cost: u64,
) -> Result<u64, u32>
    requires two { All (λ e. (G.kept e.1).word ≡ 2) others.now.entries }
    requires room { cost ≤ limit }
    ensures full { IfErr result (λ group. first_past limit cost
        (new_of (packets_by G.kept groups.now.entries)
        (packets_by G.kept others.now.entries)) ≡ Some group) }
    ensures fits { OnOk result (first_past limit cost
        (new_of (packets_by G.kept groups.now.entries)
        (packets_by G.kept others.now.entries)) ≡ None) }
    ensures total { IfOk result (λ total. total ≡ cost
        + sum_by (λ e. cost_in e.1) (new_of (packets_by G.kept groups.now.entries)
        (packets_by G.kept others.now.entries))) }
{
    let mut total = cost;
    for (group, other) in others.iter() {
        match with_group(packets_in(groups, *group), other.packets(), limit, total) {
            Some(more) => total = more,
            None => return Err(*group),
        }
    }
    Ok(total)
}

/// The packets of a group, where it is open.
pub(crate) fn packets_in<'a, G: HasPackets>(
    groups: &'a BTreeMap<u32, G>,
    group: u32,
) -> Option<&'a PacketSet>
    ensures { option_copied result ≡ packets_at (packets_by G.kept groups.now.entries) group }
{
    match groups.get(&group) {
        Some(open) => Some(open.packets()),
        None => None,
    }
}

/// What the open groups cost with one more, which costs nothing where it is open; and nothing where that is more than
/// the limit.
#[tactic(auto, unfolding(crate::specs::inside::Joining::cost_beside))]
fn with_group(mine: Option<&PacketSet>, theirs: &PacketSet, limit: u64, cost: u64) -> Option<u64>
    requires two { theirs.now.word ≡ 2 }
    requires room { cost ≤ limit }
    ensures { result ≡ cost_beside limit cost (is_none (option_copied mine.entry)) (cost_in theirs.now) }
{
    if mine.is_some() {
        return Some(cost);
    }
    let more = group_cost(&theirs.header().table);
    if limit - cost < more {
        return None;
    }
    Some(cost + more)
}
