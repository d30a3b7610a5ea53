//! Two stores of one session, joined: whether they contradict each other, and how many packets both have.
ghost use Rattle.std.specs.Prelude.{ℕ, ◌≡◌, ◌≤◌, ◌<◌, ◌+◌, ◌^◌, ◌++◌, ◌||◌, None, Some, IfOk, IfErr, IfSome, option_map};
ghost use Rattle.packet_frame.specs.Refusals.{first_fault};
ghost use Rattle.packet_verdicts.specs.KeptSet.{KeptSet, kept_in_all};
ghost use Rattle.packet_verdicts.specs.Union.{union, absorb_fault};
ghost use Rattle.store_text.specs.Store.{entries_in};
ghost use Rattle.store_text.specs.declared.format.TheConstants.{STORE_FORM};
ghost use Rattle.store_packets.specs.Packets.{HasPackets};
ghost use Rattle.store_packets.specs.inside.Reading.{frame_of};
ghost use Rattle.store_union.specs.inside.Merging.{IsPlace, IsSpelled, last_at, left_at, frames_of, Stand, left_from, last_before, passed, without, first_in, clash_at, contradicts, is_other_packet, is_there, is_open, is_in, met_behind, meets, nothing_met};

use crate::told::{
    comes_before, cost_at, first_frame, group_at, has_pair, is_double, number_at, tells_otherwise,
};
use packet_verdicts::Absorb;
use store_packets::{StorePackets, full_behind};

/// A place among the packets of a store: the last that was passed, and what is left.
#[derive(Clone, Copy)]
pub(crate) struct StorePlace<'a> {
    pub(crate) last: Option<&'a [u8]>,
    pub(crate) count: u32,
    pub(crate) rest: &'a [u8],
}

/// What is known of the groups of the second store so far: that of the last packet, what the limit leaves to further
/// groups, and the first group for which too little was left.
#[derive(Clone, Copy)]
struct Budget {
    last: Option<u32>,
    left: u64,
    full: Option<u32>,
}

/// What is known of the second store's packets so far: what its new groups cost, and how many packets are new.
#[derive(Clone, Copy)]
struct Met {
    budget: Budget,
    new: u64,
}

/// How many packets two stores have together, or the first cause for which they cannot be joined. It takes no memory.
pub fn join(mine: &StorePackets<'_>, theirs: &StorePackets<'_>) -> Result<u32, Absorb>
    requires mine { (a : KeptSet) × HasPackets mine.now a }
    requires theirs { (b : KeptSet) × HasPackets theirs.now b }
    ensures joined { IfOk result (λ count. (a b : KeptSet) → HasPackets mine.now a → HasPackets theirs.now b
        → (absorb_fault a b ≡ None) × (count ≡ kept_in_all (union a b))) }
    ensures refused { IfErr result (λ fault. (a b : KeptSet) → HasPackets mine.now a
        → HasPackets theirs.now b → absorb_fault a b ≡ Some fault) }
{
    if mine.session != theirs.session {
        return Err(Absorb::OtherSession);
    }
    let met = meet(mine, theirs)?;
    match met.budget.full {
        Some(group) => Err(Absorb::Full(group)),
        None => Ok((u64::from(mine.count) + met.new) as u32),
    }
}

/// Goes over the packets of the second store, up to the first that contradicts the first store.
fn meet(mine: &StorePackets<'_>, theirs: &StorePackets<'_>) -> Result<Met, Absorb>
    requires mine { Stand mine.now }
    requires theirs { Stand theirs.now }
    ensures met { result ≡ meets None (frames_of mine.now) (nothing_met mine.now.left)
        (frames_of theirs.now) }
    ensures few { IfOk result (λ met. met.new < 2 ^ 32) }
{
    let mut at = begin(mine);
    let mut met = Met {
        budget: Budget {
            last: None,
            left: mine.left,
            full: None,
        },
        new: 0,
    };
    let mut rest = theirs.entries;
    for _ in 0..theirs.count {
        let (next, after) = first_frame(rest);
        at = pass(at, next);
        if clashes(&at, next) {
            return Err(Absorb::Clash(group_at(next), number_at(next)));
        }
        met = behind(met, &at, next);
        rest = after;
    }
    Ok(met)
}

/// The place before all packets of a store.
pub(crate) fn begin<'a>(packets: &StorePackets<'a>) -> StorePlace<'a>
    requires listed { Stand packets.now }
    ensures place { IsPlace result }
    ensures last { last_at result ≡ None }
    ensures left { left_at result ≡ frames_of packets.now }
    ensures rest { result.rest.now ≡ packets.now.entries.now }
{
    StorePlace {
        last: None,
        count: packets.count,
        rest: packets.entries,
    }
}

/// The place behind the packets that come before another.
pub(crate) fn pass<'a>(from: StorePlace<'a>, next: &[u8]) -> StorePlace<'a>
    requires place { IsPlace from }
    requires next { first_fault next.now ≡ None }
    ensures place { IsPlace result }
    ensures last { last_at result ≡ last_before (frame_of STORE_FORM next.now) (last_at from.entry)
        (left_at from.entry) }
    ensures left { left_at result ≡ left_from (frame_of STORE_FORM next.now) (left_at from.entry) }
    ensures front { from.entry.rest.now
        ≡ entries_in STORE_FORM (passed (frame_of STORE_FORM next.now) (left_at from.entry)) ++ result.rest.now }
{
    let mut last = from.last;
    let mut rest = from.rest;
    for done in 0..from.count {
        let (datagram, after) = first_frame(rest);
        if !comes_before(datagram, next) {
            return StorePlace {
                last,
                count: from.count - done,
                rest,
            };
        }
        last = Some(datagram);
        rest = after;
    }
    StorePlace {
        last,
        count: 0,
        rest,
    }
}

/// The packet that stands at a place.
fn standing<'a>(at: &StorePlace<'a>) -> Option<&'a [u8]>
    requires place { IsPlace at.now }
    ensures first { option_map (λ d. frame_of STORE_FORM d.now) result ≡ first_in (left_at at.now) }
    ensures fine { IfSome result (λ d. first_fault d.now ≡ None) }
{
    if at.count == 0 {
        return None;
    }
    let (datagram, _) = first_frame(at.rest);
    Some(datagram)
}

/// The place behind the packet that stands there, where it is of this group and number.
pub(crate) fn skip<'a>(at: StorePlace<'a>, next: &[u8]) -> StorePlace<'a>
    requires place { IsPlace at }
    requires next { first_fault next.now ≡ None }
    ensures place { IsPlace result }
    ensures left { left_at result ≡ without (frame_of STORE_FORM next.now) (left_at at.entry) }
    ensures spelled { IsSpelled at.entry → IsSpelled result }
{
    if at.count == 0 {
        return at;
    }
    let (datagram, after) = first_frame(at.rest);
    if !has_pair(datagram, next) {
        return at;
    }
    StorePlace {
        last: Some(datagram),
        count: at.count - 1,
        rest: after,
    }
}

/// Whether a packet of the other store, before which no packet is left, contradicts those of this one.
fn clashes(at: &StorePlace<'_>, next: &[u8]) -> bool
    requires place { IsPlace at.now }
    requires next { first_fault next.now ≡ None }
    ensures { result ≡ clash_at (last_at at.now) (first_in (left_at at.now))
        (frame_of STORE_FORM next.now) }
{
    let first = standing(at);
    is_contradicted(at.last, next) || is_contradicted(first, next) || is_doubled(first, next)
}

/// Whether a packet, if there is one, tells another number of groups, or another table of the same group.
fn is_contradicted(other: Option<&[u8]>, next: &[u8]) -> bool
    requires other { IfSome other (λ d. first_fault d.now ≡ None) }
    requires next { first_fault next.now ≡ None }
    ensures { result ≡ contradicts (frame_of STORE_FORM next.now)
        (option_map (λ d. frame_of STORE_FORM d.now) other.entry) }
{
    match other {
        Some(datagram) => tells_otherwise(datagram, next),
        None => false,
    }
}

/// Whether a packet, if there is one, is another of the same group and number.
fn is_doubled(other: Option<&[u8]>, next: &[u8]) -> bool
    requires other { IfSome other (λ d. first_fault d.now ≡ None) }
    requires next { first_fault next.now ≡ None }
    ensures { result ≡ is_other_packet (frame_of STORE_FORM next.now)
        (option_map (λ d. frame_of STORE_FORM d.now) other.entry) }
{
    match other {
        Some(datagram) => is_double(datagram, next),
        None => false,
    }
}

/// What is known behind one packet more.
fn behind(met: Met, at: &StorePlace<'_>, next: &[u8]) -> Met
    requires place { IsPlace at.now }
    requires next { first_fault next.now ≡ None }
    requires few { met.new < 2 ^ 32 }
    ensures met { result ≡ met_behind met (last_at at.now) (first_in (left_at at.now))
        (frame_of STORE_FORM next.now) }
    ensures few { result.new ≤ met.new + 1 }
{
    let group = group_at(next);
    let new = if is_kept(at, next) {
        met.new
    } else {
        met.new + 1
    };
    if met.budget.last == Some(group) || is_opened(at, group) {
        return Met {
            budget: Budget {
                last: Some(group),
                left: met.budget.left,
                full: met.budget.full,
            },
            new,
        };
    }
    let cost = cost_at(next);
    let left = if met.budget.left < cost {
        0
    } else {
        met.budget.left - cost
    };
    Met {
        budget: Budget {
            last: Some(group),
            left,
            full: full_behind(met.budget.full, met.budget.left, group, cost),
        },
        new,
    }
}

/// Whether the packet that stands at a place is of this group and number.
fn is_kept(at: &StorePlace<'_>, next: &[u8]) -> bool
    requires place { IsPlace at.now }
    requires next { first_fault next.now ≡ None }
    ensures { result ≡ is_there (first_in (left_at at.now)) (frame_of STORE_FORM next.now) }
{
    match standing(at) {
        Some(first) => has_pair(first, next),
        None => false,
    }
}

/// Whether the packet before a place or the one that stands there is of this group.
fn is_opened(at: &StorePlace<'_>, group: u32) -> bool
    requires place { IsPlace at.now }
    ensures { result ≡ (is_in group (last_at at.now) || is_in group (first_in (left_at at.now))) }
{
    is_of_group(at.last, group) || is_of_group(standing(at), group)
}

/// Whether a packet, if there is one, is of this group.
fn is_of_group(other: Option<&[u8]>, group: u32) -> bool
    requires other { IfSome other (λ d. first_fault d.now ≡ None) }
    ensures { result ≡ is_in group (option_map (λ d. frame_of STORE_FORM d.now) other.entry) }
{
    match other {
        Some(datagram) => group_at(datagram) == group,
        None => false,
    }
}
