//! How many layers of a group are shown.
ghost use Rattle.std.specs.Prelude.{◌≡◌, cond};
ghost use Rattle.packet_verdicts.specs.GroupLayers.{shown_in, whole_in};

use packet_set::PacketSet;

/// How many layers of a group are shown. It takes no memory.
pub fn shown_layers(packets: &PacketSet) -> u32
    ensures { result ≡ shown_in packets.now }
{
    let held = packets.len();
    let mut shown = 0;
    for needed in packets.counts() {
        shown += one_if(*needed <= held);
    }
    shown
}

/// One where every layer of a group is shown, and else nothing. It takes no memory.
#[tactic(auto, unfolding(crate::specs::GroupLayers::whole_in))]
pub fn one_if_whole(packets: &PacketSet) -> u32
    ensures { result ≡ whole_in packets.now }
{
    one_if(shown_layers(packets) as usize == packets.header().table.layers().len())
}

/// One for yes, and nothing for no.
fn one_if(yes: bool) -> u32
    ensures { result ≡ cond yes 1 0 }
{
    if yes { 1 } else { 0 }
}
