//! The packets of a group that are not kept, made again, sent and kept.
ghost use Rattle.std.specs.Prelude.{◌+◌, ◌<◌, ◌≤◌, map, OnOk, OnErr};
ghost use Rattle.outside_routes.specs.Sending.{routes, SendsPart, SendsTold, IsOpen};
ghost use Rattle.outside_routes.specs.Way.{way_of};
ghost use Rattle.field_elements.specs.Gf16.{gf16_coding};
ghost use Rattle.packet_frame.specs.Frame.{text};
ghost use Rattle.pet_receive.specs.Arrivals.{kept_set};
ghost use Rattle.packet_rebuild.specs.MadeRange.{IsMadeRange};
ghost use Rattle.packet_rebuild.specs.Rebuilding.{IsOpenFor};
ghost use Rattle.packet_rebuild.specs.Repairs.{made_again};
ghost use Rattle.pet_repair.specs.inside.Arrivals.{SendsAgain};

use outside_routes::{Route, RouteStop, put_datagram};
use packet_rebuild::{MadeRange, make_frame, make_range, next_count};
use pet_base::{Link, Place, Steps};
use pet_encode::Encoder;
use pet_field::Gf16Tables;
use pet_receive::Receiver;
use std::alloc::Global;
use std::sync::ledger::Ledger;

/// Sends the packets of the encoder's group that are not kept, by number, and keeps them. The payloads are made a range at once,
/// unless they are at hand, and each range is sent before the next is made.
pub(crate) fn put_others<P: Place, K: Link, L: Ledger>(
    alloc: Global,
    to: Route<'_>,
    receiver: &mut Receiver<'_, Gf16Tables>,
    encoder: &Encoder<'_, Gf16Tables>,
    made: &mut MadeRange,
    entry: &mut Vec<u8>,
    place: &mut P,
    link: &mut K,
    steps: &mut Steps<L>,
) -> Result<(), RouteStop>
    requires open { IsOpen (way_of to) (routes P.Place K.Link place.old link.old) }
    requires made { IsMadeRange gf16_coding encoder.now made.old }
    requires opened { IsOpenFor (kept_set receiver.old) encoder.now }
    ensures again { OnOk result (SendsAgain (way_of to.entry) receiver.old encoder.now 0
        encoder.now.header.table.packets receiver.new
        (routes P.Place K.Link place.old link.old) (routes P.Place K.Link place.new link.new)) }
    ensures part { OnErr result (SendsPart (way_of to.entry)
        (map text (made_again gf16_coding (kept_set receiver.old) encoder.now 0 encoder.now.header.table.packets))
        (routes P.Place K.Link place.old link.old) (routes P.Place K.Link place.new link.new)) }
    ensures told { SendsTold (way_of to.entry) result (routes P.Place K.Link place.old link.old)
        (routes P.Place K.Link place.new link.new) }
{
    let packets = encoder.header().table.packets();
    let mut frame = Vec::new(alloc);
    let mut first = 0;
    while first < packets {
        let count = next_count(encoder, first);
        make_range(encoder, first, count, made, steps)?;
        put_others_of(
            to, receiver, encoder, made, &mut frame, entry, place, link, steps,
        )?;
        first += count;
    }
    Ok(())
}

/// The same of a range that is made.
fn put_others_of<P: Place, K: Link, L: Ledger>(
    to: Route<'_>,
    receiver: &mut Receiver<'_, Gf16Tables>,
    encoder: &Encoder<'_, Gf16Tables>,
    made: &MadeRange,
    frame: &mut Vec<u8>,
    entry: &mut Vec<u8>,
    place: &mut P,
    link: &mut K,
    steps: &mut Steps<L>,
) -> Result<(), RouteStop>
    requires open { IsOpen (way_of to) (routes P.Place K.Link place.old link.old) }
    requires made { IsMadeRange gf16_coding encoder.now made.now }
    requires opened { IsOpenFor (kept_set receiver.old) encoder.now }
    ensures again { OnOk result (SendsAgain (way_of to.entry) receiver.old encoder.now
        made.now.first made.now.count receiver.new
        (routes P.Place K.Link place.old link.old) (routes P.Place K.Link place.new link.new)) }
    ensures opened { OnOk result (IsOpenFor (kept_set receiver.new) encoder.now) }
    ensures part { OnErr result (SendsPart (way_of to.entry)
        (map text (made_again gf16_coding (kept_set receiver.old) encoder.now made.now.first made.now.count))
        (routes P.Place K.Link place.old link.old) (routes P.Place K.Link place.new link.new)) }
    ensures told { SendsTold (way_of to.entry) result (routes P.Place K.Link place.old link.old)
        (routes P.Place K.Link place.new link.new) }
{
    for p in 0..made.count {
        let number = made.first + p;
        put_other(
            to, receiver, encoder, made, number, frame, entry, place, link, steps,
        )?;
    }
    Ok(())
}

/// The same of one packet of it.
fn put_other<P: Place, K: Link, L: Ledger>(
    to: Route<'_>,
    receiver: &mut Receiver<'_, Gf16Tables>,
    encoder: &Encoder<'_, Gf16Tables>,
    made: &MadeRange,
    number: u16,
    frame: &mut Vec<u8>,
    entry: &mut Vec<u8>,
    place: &mut P,
    link: &mut K,
    steps: &mut Steps<L>,
) -> Result<(), RouteStop>
    requires open { IsOpen (way_of to) (routes P.Place K.Link place.old link.old) }
    requires made { IsMadeRange gf16_coding encoder.now made.now }
    requires from { made.now.first ≤ number }
    requires before { number < made.now.first + made.now.count }
    requires opened { IsOpenFor (kept_set receiver.old) encoder.now }
    ensures again { OnOk result (SendsAgain (way_of to.entry) receiver.old encoder.now number 1
        receiver.new
        (routes P.Place K.Link place.old link.old) (routes P.Place K.Link place.new link.new)) }
    ensures opened { OnOk result (IsOpenFor (kept_set receiver.new) encoder.now) }
    ensures part { OnErr result (SendsPart (way_of to.entry)
        (map text (made_again gf16_coding (kept_set receiver.old) encoder.now number 1))
        (routes P.Place K.Link place.old link.old) (routes P.Place K.Link place.new link.new)) }
    ensures told { SendsTold (way_of to.entry) result (routes P.Place K.Link place.old link.old)
        (routes P.Place K.Link place.new link.new) }
{
    if receiver.has(encoder.header().group, number) {
        return Ok(());
    }
    make_frame(encoder, made, number, frame)?;
    let datagram = frame.as_slice();
    put_datagram(to, place, link, datagram, entry)?;
    receiver.accept(datagram, steps)?;
    Ok(())
}
