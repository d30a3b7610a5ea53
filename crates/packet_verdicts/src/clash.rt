//! Which packet of a group kept elsewhere clashes with what is kept here.
ghost use Rattle.std.specs.Prelude.{◌≡◌, not, false, option_copied};
ghost use Rattle.std.specs.Option.{option_map_or};
ghost use Rattle.stripe_plan.specs.Same.{same_table};
ghost use Rattle.packet_verdicts.specs.GroupClash.{is_other_group, is_other_payload, clash_at, first_clash_in};

use crate::judge::is_other_count;
use packet_frame::Header;
use packet_set::PacketSet;
use stripe_plan::Table;

/// The first packet of a group that clashes with what is kept of it here, where `told` is the number of groups that the
/// packets here tell. It takes no memory.
pub fn clash_in(told: Option<u32>, mine: Option<&PacketSet>, theirs: &PacketSet) -> Option<u16>
    ensures { result ≡ first_clash_in told (option_copied mine.entry) theirs.now }
{
    let header = theirs.header();
    let other = contradicts(told, mine, header);
    for number in 0..header.table.packets() {
        if clashes_at(other, mine, theirs, number) {
            return Some(number);
        }
    }
    None
}

/// Whether a packet is there, and clashes: as its group does, or by its payload.
fn clashes_at(other: bool, mine: Option<&PacketSet>, theirs: &PacketSet, number: u16) -> bool
    ensures { result ≡ clash_at other (option_copied mine.entry) theirs.now number }
{
    match theirs.payload(number) {
        Some(payload) => other || has_other_payload(mine, number, payload),
        None => false,
    }
}

/// Whether another number of groups was told, or the group is open with another table.
fn contradicts(told: Option<u32>, mine: Option<&PacketSet>, header: &Header) -> bool
    ensures { result ≡ is_other_group told (option_copied mine.entry) header.now }
{
    is_other_count(told, header.groups) || has_other_table(mine, &header.table)
}

/// Whether the group is open with another table.
fn has_other_table(mine: Option<&PacketSet>, table: &Table) -> bool
    ensures { result ≡ option_map_or (λ p. not (same_table p.header.table table.now))
        (option_copied mine.entry) false }
{
    match mine {
        Some(packets) => packets.header().table != *table,
        None => false,
    }
}

/// Whether the number is kept with another payload.
fn has_other_payload(mine: Option<&PacketSet>, number: u16, payload: &[u8]) -> bool
    ensures { result ≡ is_other_payload (option_copied mine.entry) number payload.now }
{
    match mine {
        Some(packets) => match packets.payload(number) {
            Some(kept) => kept != payload,
            None => false,
        },
        None => false,
    }
}
