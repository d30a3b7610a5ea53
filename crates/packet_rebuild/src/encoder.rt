//! The encoder of a group that a receiver has kept.
ghost use Rattle.std.specs.Prelude.{◌≡◌, ◌≢◌, ◌*◌, ◌≤◌, ◌<◌, None, Some, IfErr, IfOk, OnOk, option_map, option_copied, length};
ghost use Rattle.stripe_plan.specs.Layers.{needs_of};
ghost use Rattle.packet_set.specs.Packets.{Packets};
ghost use Rattle.packet_verdicts.specs.KeptSet.{IsKeptSet, open_group};
ghost use Rattle.pet_receive.specs.Arrivals.{Order, HasKept, kept_set, layers_of};
ghost use Rattle.packet_rebuild.specs.Repairs.{IsEncoderOf, first_hidden, repair_fault};

use crate::fault::RepairFault;
use crate::message::message_of;
use field_rows::Rows;
use packet_frame::Header;
use pet_base::{MAX_GROUPS, MAX_PACKETS, NoMemory};
use pet_encode::Encoder;
use pet_receive::Receiver;
use std::alloc::Global;

/// The encoder of a group of which so much is kept that all its layers are shown: that of the group's header, and of the
/// layers' bytes as the message, each layer in whole words.
///
/// # Errors
///
/// The group is not open; or a layer is not shown, the least of which is told; or there was no memory.
pub fn encoder_of<'f, F: Rows>(
    alloc: Global,
    f: &'f F,
    receiver: &Receiver<'_, F>,
    group: u32,
) -> Result<Encoder<'f, F>, RepairFault>
    requires width { F.coding.width ≡ 2 }
    requires points { MAX_PACKETS ≤ F.COUNT }
    ensures refused { IfErr result (λ fault. fault ≢ RepairFault.NoMemory
        → repair_fault (kept_set receiver.now) group ≡ Some fault) }
    ensures ok { OnOk result (repair_fault (kept_set receiver.now) group ≡ None) }
    ensures encoder { IfOk result (λ e. IsEncoderOf F.is_element F.coding receiver.now group e) }
{
    match open_header(receiver, group) {
        Some(header) => encoder_in(alloc, f, receiver, group, header),
        None => Err(RepairFault::NotOpen),
    }
}

/// The header of a group, where it is open. What a receiver holds is a kept set, and stands for an order of arrival.
fn open_header<'a, F: Rows>(receiver: &'a Receiver<'_, F>, group: u32) -> Option<&'a Header>
    ensures header { option_copied result ≡ option_map (λ p. p.header) (open_group (kept_set receiver.now) group) }
    ensures held { (order : Order) × HasKept F.is_element F.coding receiver.now order }
    ensures sound { IsKeptSet (kept_set receiver.now) }
{
    match receiver.groups() {
        Some(_) => receiver.header(group),
        None => None,
    }
}

/// The encoder of an open group, whose header this is.
fn encoder_in<'f, F: Rows>(
    alloc: Global,
    f: &'f F,
    receiver: &Receiver<'_, F>,
    group: u32,
    header: &Header,
) -> Result<Encoder<'f, F>, RepairFault>
    requires width { F.coding.width ≡ 2 }
    requires points { MAX_PACKETS ≤ F.COUNT }
    requires held { (order : Order) × HasKept F.is_element F.coding receiver.now order }
    requires sound { IsKeptSet (kept_set receiver.now) }
    requires header { option_map (λ p. p.header) (open_group (kept_set receiver.now) group)
        ≡ Some header.now }
    ensures refused { IfErr result (λ fault. fault ≢ RepairFault.NoMemory
        → repair_fault (kept_set receiver.now) group ≡ Some fault) }
    ensures ok { OnOk result (repair_fault (kept_set receiver.now) group ≡ None) }
    ensures encoder { IfOk result (λ e. IsEncoderOf F.is_element F.coding receiver.now group e) }
{
    let layers = header.table.layers().len() as u8;
    match hidden_layer(receiver, group, layers) {
        Some(layer) => Err(RepairFault::NotShown(layer)),
        None => {
            let message = message_of(alloc, receiver, group, layers)?;
            Ok(made(alloc, f, header, &message)?)
        }
    }
}

/// The encoder of a header and a message.
fn made<'f, F: Rows>(
    alloc: Global,
    f: &'f F,
    header: &Header,
    message: &[u8],
) -> Result<Encoder<'f, F>, NoMemory>
    requires width { F.coding.width ≡ 2 }
    requires points { MAX_PACKETS ≤ F.COUNT }
    requires groups { header.now.groups ≤ MAX_GROUPS }
    requires group { header.now.group < header.now.groups }
    requires message { length message.now
        ≡ length (needs_of header.now.table.layers) * F.coding.width }
    ensures header { IfOk result (λ e. e.header ≡ header.now) }
    ensures message { IfOk result (λ e. e.message ≡ message.now) }
{
    let header = header.clone()?;
    Encoder::new(alloc, f, header, message)
}

/// The least of the first layers of a group that is not shown.
fn hidden_layer<F: Rows>(receiver: &Receiver<'_, F>, group: u32, layers: u8) -> Option<u8>
    requires { (p : Packets) → open_group (kept_set receiver.now) group ≡ Some p → layers ≡ length (layers_of p) }
    ensures { (p : Packets) → open_group (kept_set receiver.now) group ≡ Some p → result ≡ first_hidden p }
{
    for layer in 0..layers {
        if receiver.layer(group, layer).is_none() {
            return Some(layer);
        }
    }
    None
}
