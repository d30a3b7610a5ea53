//! The layers of a group that are shown by what another receiver has kept of it.
ghost use Rattle.std.specs.Prelude.{◌≡◌, ◌<◌, ◌≤◌, cond, [], ◌∷◌, ◌++◌, length, map, option_copied, OnOk, is_some, false};
ghost use Rattle.std.specs.Option.{option_map_or};
ghost use Rattle.packet_set.specs.Packets.{slot_at};
ghost use Rattle.packet_verdicts.specs.inside.ByCounts.{shown_by};
ghost use Rattle.packet_verdicts.specs.Union.{new_numbers, is_new};
ghost use Rattle.packet_verdicts.specs.GroupLayers.{count_in_open, shown_by_both};

use crate::judge::is_shown_between;
use packet_set::PacketSet;
use pet_base::{MAX_LAYERS, NoMemory};

/// Puts the layers of a group at the end that are shown by all that is kept of it here or there, and not by what is kept
/// here.
pub fn push_shown(
    shown: &mut Vec<(u32, u8)>,
    group: u32,
    mine: Option<&PacketSet>,
    theirs: &PacketSet,
) -> Result<(), NoMemory>
    ensures { OnOk result (shown.new.items ≡ shown.old.items
        ++ map (λ layer. (group, layer)) (shown_by_both (option_copied mine.entry) theirs.now)) }
{
    let before = count_here(mine);
    let after = before + count_new(mine, theirs);
    push_between(shown, group, theirs.counts(), before, after)
}

/// How many packets are kept of a group.
fn count_here(mine: Option<&PacketSet>) -> u32
    ensures value { result ≡ count_in_open (option_copied mine.entry) }
    ensures few { result < 65536 }
{
    match mine {
        Some(packets) => u32::from(packets.len()),
        None => 0,
    }
}

/// How many packets of a group are kept there and not here.
fn count_new(mine: Option<&PacketSet>, theirs: &PacketSet) -> u32
    ensures value { result ≡ length (new_numbers (option_copied mine.entry) theirs.now) }
    ensures few { result < 65536 }
{
    let mut total = 0;
    for number in 0..theirs.header().table.packets() {
        total += one_if_new(mine, theirs, number);
    }
    total
}

/// One where a packet is kept there and not here, and else nothing.
fn one_if_new(mine: Option<&PacketSet>, theirs: &PacketSet, number: u16) -> u32
    ensures { result ≡ cond (is_new (option_copied mine.entry) theirs.now number) 1 0 }
{
    if theirs.has(number) && !has_number(mine, number) {
        1
    } else {
        0
    }
}

/// Whether a packet of a group is kept.
fn has_number(mine: Option<&PacketSet>, number: u16) -> bool
    ensures { result ≡ option_map_or (λ p. is_some (slot_at p number)) (option_copied mine.entry) false }
{
    match mine {
        Some(packets) => packets.has(number),
        None => false,
    }
}

/// Puts the layers of a group at the end that are shown by `after` packets, and not by `before`, where so many packets show
/// each layer.
fn push_between(
    shown: &mut Vec<(u32, u8)>,
    group: u32,
    counts: &[u16],
    before: u32,
    after: u32,
) -> Result<(), NoMemory>
    requires { length counts.now ≤ MAX_LAYERS }
    ensures { OnOk result (shown.new.items ≡ shown.old.items
        ++ map (λ layer. (group, layer)) (shown_by counts.now before after)) }
{
    for layer in 0..counts.len() as u8 {
        let wanted = is_shown_between(counts[usize::from(layer)], before, after);
        push_if(shown, group, layer, wanted)?;
    }
    Ok(())
}

/// Puts a layer of a group at the end where it is wanted.
fn push_if(shown: &mut Vec<(u32, u8)>, group: u32, layer: u8, wanted: bool) -> Result<(), NoMemory>
    ensures { OnOk result (shown.new.items
        ≡ shown.old.items ++ cond wanted ((group, layer) ∷ []) []) }
{
    if wanted {
        shown.push((group, layer))?;
    }
    Ok(())
}
