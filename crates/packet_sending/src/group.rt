//! The packets of one group, sent on a route, in any format and over any field.
ghost use Rattle.std.specs.Prelude.{◌≡◌, ◌+◌, ◌*◌, ◌≤◌, length, OnOk, OnErr, IfErr};
ghost use Rattle.stripe_plan.specs.Layers.{needs_of};
ghost use Rattle.pet_base.specs.Causes.{stops};
ghost use Rattle.pet_base.specs.Seen.{PlaceStops};
ghost use Rattle.pet_base.specs.LinkSeen.{LinkStops};
ghost use Rattle.outside_routes.specs.RouteFaults.{IsStop, stop_of_a_place, stop_of_a_link};
ghost use Rattle.outside_routes.specs.Sending.{routes, Sends, SendsPart, SendsTold, IsOpen, OnlyGrows, OutputFailed, SendingFailed};
ghost use Rattle.outside_routes.specs.Way.{way_of};
ghost use Rattle.packet_frame.specs.Format.{IsFormat};
ghost use Rattle.packet_session.specs.Datagrams.{group_datagrams_in, range_datagrams_in};
ghost use Rattle.stripe_plan.specs.declared.bounds.TheConstants.{BOUNDS};

use field_values::AllValues;
use outside_routes::{Route, RouteStop, put_datagram};
use packet_encoder::PacketEncoder;
use pet_base::{Link, Place, Steps};
use std::alloc::Global;
use std::sync::ledger::Ledger;

/// The bytes that the packets of a range may have: those of a group that fit are made at once.
const RANGE_ROOM: u32 = 16_777_216;

/// Sends the packets of the encoder's group, each once, by number: to a file as entries, each the length of a packet in two
/// bytes and then the packet, or by the link as they are. Where it stops, a front of the entries stands in the file, or the link
/// has sent the first of them. It counts at most packets times words of the group.
///
/// # Errors
///
/// There was no memory, or the object that the route leads to failed.
pub fn put_group<P: Place, K: Link, F: AllValues, L: Ledger>(
    alloc: Global,
    to: Route<'_>,
    place: &mut P,
    link: &mut K,
    encoder: &PacketEncoder<'_, F>,
    steps: &mut Steps<L>,
) -> Result<(), RouteStop>
    requires format { IsFormat encoder.now.format }
    requires bare { encoder.now.format.bounds.bare ≡ BOUNDS.bare }
    requires open { IsOpen (way_of to) (routes P.Place K.Link place.old link.old) }
    ensures sends { OnOk result (Sends (way_of to.entry) (group_datagrams_in encoder.now.format F.coding encoder.now.encoding)
        (routes P.Place K.Link place.old link.old) (routes P.Place K.Link place.new link.new)) }
    ensures part { OnErr result (SendsPart (way_of to.entry) (group_datagrams_in encoder.now.format F.coding encoder.now.encoding)
        (routes P.Place K.Link place.old link.old) (routes P.Place K.Link place.new link.new)) }
    ensures others { OnlyGrows (routes P.Place K.Link place.old link.old)
        (routes P.Place K.Link place.new link.new) }
    ensures cause { IfErr result (IsStop
        (OutputFailed (way_of to.entry) (P.seen place.old) (P.seen place.new))
        (SendingFailed (way_of to.entry) (K.seen link.old) (K.seen link.new)) ⊥) }
    ensures once_place { PlaceStops (stops stop_of_a_place result) (P.seen place.old)
        (P.seen place.new) }
    ensures once_link { LinkStops (stops stop_of_a_link result) (K.seen link.old)
        (K.seen link.new) }
    ensures cost { steps.new ≤ steps.old + encoder.now.encoding.header.table.packets * length
        (needs_of encoder.now.encoding.header.table.layers) }
{
    let packets = encoder.header().table.packets();
    let most = (RANGE_ROOM / encoder.frame_length()).max(1);
    let mut frames = Vec::new(alloc);
    let mut entry = Vec::new(alloc);
    let mut first = 0;
    while first < packets {
        let count = most.min(u32::from(packets - first)) as u16;
        put_range(
            to,
            place,
            link,
            encoder,
            first,
            count,
            &mut frames,
            &mut entry,
            steps,
        )?;
        first += count;
    }
    Ok(())
}

/// Sends the packets `first` to `first + count - 1`, which are packets of the group. The buffers are emptied first.
fn put_range<P: Place, K: Link, F: AllValues, L: Ledger>(
    to: Route<'_>,
    place: &mut P,
    link: &mut K,
    encoder: &PacketEncoder<'_, F>,
    first: u16,
    count: u16,
    frames: &mut Vec<u8>,
    entry: &mut Vec<u8>,
    steps: &mut Steps<L>,
) -> Result<(), RouteStop>
    requires format { IsFormat encoder.now.format }
    requires bare { encoder.now.format.bounds.bare ≡ BOUNDS.bare }
    requires open { IsOpen (way_of to) (routes P.Place K.Link place.old link.old) }
    requires within { first + count ≤ encoder.now.encoding.header.table.packets }
    ensures sends { OnOk result (Sends (way_of to.entry) (range_datagrams_in encoder.now.format F.coding encoder.now.encoding first count)
        (routes P.Place K.Link place.old link.old) (routes P.Place K.Link place.new link.new)) }
    ensures part { OnErr result (SendsPart (way_of to.entry) (range_datagrams_in encoder.now.format F.coding encoder.now.encoding first count)
        (routes P.Place K.Link place.old link.old) (routes P.Place K.Link place.new link.new)) }
    ensures told { SendsTold (way_of to.entry) result (routes P.Place K.Link place.old link.old)
        (routes P.Place K.Link place.new link.new) }
    ensures cost { steps.new ≤ steps.old + count * length (needs_of encoder.now.encoding.header.table.layers) }
{
    let length = encoder.frame_length() as usize;
    frames.clear();
    encoder.range(first, count, frames, steps)?;
    let mut at = 0;
    for _ in 0..count {
        let end = at + length;
        put_datagram(to, place, link, &frames[at..end], entry)?;
        at = end;
    }
    Ok(())
}
