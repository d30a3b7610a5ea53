//! The layers that are shown by what another receiver has kept.
ghost use Rattle.std.specs.Prelude.{◌≡◌, IfOk};
ghost use Rattle.packet_receiver.specs.inside.Joining.{packets_by, shown_by};

use crate::checks::packets_in;
use crate::has_packets::HasPackets;
use packet_verdicts::push_shown;
use pet_base::NoMemory;
use std::alloc::Global;
use std::collections::BTreeMap;

/// The layers that are shown by all that is kept here or there, and not by what is kept here, by group, then layer.
pub(crate) fn newly_shown<G: HasPackets>(
    alloc: Global,
    groups: &BTreeMap<u32, G>,
    others: &BTreeMap<u32, G>,
) -> Result<Vec<(u32, u8)>, NoMemory>
    ensures { IfOk result (λ shown. shown.items ≡ shown_by (packets_by G.kept groups.now.entries)
        (packets_by G.kept others.now.entries)) }
{
    let mut shown = Vec::new(alloc);
    for (group, other) in others.iter() {
        push_shown(
            &mut shown,
            *group,
            packets_in(groups, *group),
            other.packets(),
        )?;
    }
    Ok(shown)
}
