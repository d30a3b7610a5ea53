//! The packets of a store group by group, and a receiver of some of them.
ghost use Rattle.std.specs.Prelude.{◌≡◌, ◌+◌, ◌≤◌, ◌<◌, List, length, None, Ok, Err, IfOk, IfErr};
ghost use Rattle.pet_base.specs.declared.limits.TheConstants.{MAX_PACKETS};
ghost use Rattle.packet_frame.specs.Frame.{Fields};
ghost use Rattle.packet_frame.specs.Refusals.{first_fault};
ghost use Rattle.packet_verdicts.specs.KeptSet.{KeptSet, IsKeptSet};
ghost use Rattle.pet_receive.specs.Arrivals.{HasKept, kept_set};
ghost use Rattle.pet_receive.specs.ShownBytes.{groups_told};
ghost use Rattle.store_text.specs.Files.{store_in};
ghost use Rattle.store_text.specs.Store.{entries_in};
ghost use Rattle.store_text.specs.declared.format.TheConstants.{STORE_FORM};
ghost use Rattle.store_groups.specs.Groups.{ArePackets, AreAbove, only_group};
ghost use Rattle.store_merge.specs.Reading.{pairs_in, store_steps};
ghost use Rattle.store_groups.specs.inside.Groups.{IsCut, groups_in};

use field_rows::Rows;
use packet_verdicts::group_of;
use pet_base::{NoMemory, Steps};
use pet_receive::Receiver;
use std::alloc::Global;
use std::sync::ledger::Ledger;
use store_merge::take_entries;
use store_packets::{next_entry, packets_of_file};
use store_text::BadStore;

/// Where the number of a session's groups stands in a frame.
const GROUPS: usize = 12;

/// The packets of some groups of a store, which lend its bytes.
#[derive(Drop)]
pub struct GroupPackets<'a> {
    /// The number of their session.
    pub session: [u8; 8],
    /// How many packets there are.
    pub count: u32,
    /// Their entries, on end, by group, then number.
    pub entries: &'a [u8],
}

/// The packets of all groups of the store that these bytes of a file are, of which at most one past the limit are given, or
/// the first refusal. It takes no memory.
pub fn read_groups(bytes: &[u8]) -> Result<GroupPackets<'_>, BadStore>
    ensures packets { IfOk result (λ packets. (set : KeptSet) × (store_in bytes.now ≡ Ok set)
        × ArePackets packets set) }
    ensures refused { IfErr result (λ fault. store_in bytes.now ≡ Err fault) }
{
    let packets = packets_of_file(bytes)?;
    Ok(GroupPackets {
        session: packets.session,
        count: packets.count,
        entries: packets.entries,
    })
}

/// How many groups the session of these packets has, as the first of them tells, and 0 where there are none.
pub fn groups_of(packets: &GroupPackets<'_>) -> u32
    requires packets { (set : KeptSet) × ArePackets packets.now set }
    ensures told { (set : KeptSet) → ArePackets packets.now set → result ≡ groups_told set }
{
    match next_entry(packets.entries) {
        Some((datagram, _)) => told_in(datagram),
        None => 0,
    }
}

/// How many groups a frame tells.
fn told_in(datagram: &[u8]) -> u32
    requires frame { first_fault datagram.now ≡ None }
    ensures { result ≡ groups_in datagram.now }
{
    u32::from_be_bytes([
        datagram[GROUPS],
        datagram[GROUPS + 1],
        datagram[GROUPS + 2],
        datagram[GROUPS + 3],
    ])
}

/// The packets of a group, and those of the groups above it, where none of these packets is of a group below it.
pub fn split_group<'a>(
    packets: &GroupPackets<'a>,
    group: u32,
) -> (GroupPackets<'a>, GroupPackets<'a>)
    requires packets { (set : KeptSet) × AreAbove packets.now set group × (group < groups_told set) }
    ensures group { (set : KeptSet) → AreAbove packets.now set group → group < groups_told set
        → ArePackets result.0 (only_group set group) }
    ensures above { (set : KeptSet) → AreAbove packets.now set group → group < groups_told set
        → AreAbove result.1 set (group + 1) }
{
    let (count, above) = skip_group(packets.count, packets.entries, group);
    let (own, _) = packets
        .entries
        .split_at(packets.entries.len() - above.len());
    (
        GroupPackets {
            session: packets.session,
            count,
            entries: own,
        },
        GroupPackets {
            session: packets.session,
            count: packets.count - count,
            entries: above,
        },
    )
}

/// How many of these entries at the front are of the group, and the others, where those of the group stand first.
fn skip_group(count: u32, entries: &[u8], group: u32) -> (u32, &[u8])
    requires cut { (own other : List Fields) × IsCut group count entries.now own other }
    ensures cut { (own other : List Fields) → IsCut group count entries.now own other
        → (result.0 ≡ length own) × (result.1.now ≡ entries_in STORE_FORM other) }
{
    let mut rest = entries;
    for done in 0..count {
        let Some((datagram, after)) = next_entry(rest) else {
            return (done, rest);
        };
        if group_of(datagram) != group {
            return (done, rest);
        }
        rest = after;
    }
    (count, rest)
}

/// A receiver of the session that has kept these packets, in the order in which they stand there. The groups may cost at most
/// `limit`.
pub fn receive_packets<'f, F: Rows, L: Ledger>(
    alloc: Global,
    f: &'f F,
    packets: &GroupPackets<'_>,
    limit: u64,
    steps: &mut Steps<L>,
) -> Result<Receiver<'f, F>, NoMemory>
    requires width { F.coding.width ≡ 2 }
    requires points { MAX_PACKETS ≤ F.COUNT }
    requires packets { (set : KeptSet) × ArePackets packets.now set × (set.limit ≡ limit) }
    ensures kept { IfOk result (λ r. (set : KeptSet) → ArePackets packets.now set → set.limit ≡ limit → kept_set r ≡ set) }
    ensures order { IfOk result (λ r. HasKept F.is_element F.coding r (pairs_in (kept_set r))) }
    ensures cost { IfOk result (λ r. steps.new ≤ steps.old + store_steps (kept_set r)) }
    ensures sound { IfOk result (λ r. IsKeptSet (kept_set r)) }
{
    let mut receiver = Receiver::new(alloc, f, packets.session, limit);
    match take_entries(&mut receiver, packets.count, packets.entries, steps) {
        Ok(()) => Ok(receiver),
        Err(fault) => Err(want_of_memory(fault)),
    }
}

/// Want of memory, where entries are refused for nothing else.
fn want_of_memory(fault: BadStore) -> NoMemory
    requires { fault ≡ BadStore.NoMemory }
{
    match fault {
        BadStore::NoMemory => NoMemory,
        BadStore::At(_, _) => unreachable!(),
    }
}
