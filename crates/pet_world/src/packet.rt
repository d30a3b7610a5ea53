//! The packets of a session as datagrams.
ghost use Rattle.std.specs.Prelude.{◌≡◌, true, false, nat_lt, IfOk, slice_get};
ghost use Rattle.std.specs.Option.{option_map_or};
ghost use Rattle.pet_world.specs.inside.Receivers.{IsPacketText};

use field_rows::Rows;
use pet_base::{NoMemory, Steps};
use pet_encode::Encoder;
use std::alloc::Global;
use std::sync::ledger::Ledger;

/// Whether there is a packet of the group and the number.
pub(crate) fn has_packet<F: Rows>(encoders: &[Encoder<'_, F>], group: u32, number: u16) -> bool
    ensures { result ≡ option_map_or (λ e. nat_lt number e.header.table.packets)
        (slice_get encoders.now group) false }
{
    match encoders.get(group as usize) {
        Some(encoder) => number < encoder.header().table.packets(),
        None => false,
    }
}

/// The packet of a group and a number.
pub(crate) fn datagram_of<F: Rows, L: Ledger>(
    alloc: Global,
    encoders: &[Encoder<'_, F>],
    group: u32,
    number: u16,
    steps: &mut Steps<L>,
) -> Result<Vec<u8>, NoMemory>
    requires { option_map_or (λ e. nat_lt number e.header.table.packets)
        (slice_get encoders.now group) false ≡ true }
    ensures { IfOk result (λ bytes. IsPacketText F.coding encoders.now group number bytes.items
        steps.old steps.new) }
{
    let mut bytes = Vec::new(alloc);
    encoders[group as usize].packet(number, &mut bytes, steps)?;
    Ok(bytes)
}
