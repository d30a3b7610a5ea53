//! All packets of a group, sent on a route.
ghost use Rattle.std.specs.Prelude.{OnOk, OnErr};
ghost use Rattle.outside_routes.specs.Sending.{routes, Sends, SendsPart, SendsTold, IsOpen};
ghost use Rattle.outside_routes.specs.Way.{way_of};
ghost use Rattle.field_elements.specs.Gf16.{gf16_coding};
ghost use Rattle.packet_rebuild.specs.MadeRange.{IsMadeRange};
ghost use Rattle.pet_repair.specs.Repaired.{all_datagrams};
ghost use Rattle.pet_repair.specs.inside.Groups.{range_datagrams};

use outside_routes::{Route, RouteStop, put_datagram};
use packet_rebuild::{MadeRange, make_frame, make_range, next_count};
use pet_base::{Link, Place, Steps};
use pet_encode::Encoder;
use pet_field::Gf16Tables;
use std::alloc::Global;
use std::sync::ledger::Ledger;

/// Sends all packets of the encoder's group, by number. Their payloads are made a range at once, unless they are at hand, and each
/// range is sent before the next is made.
pub(crate) fn put_whole<P: Place, K: Link, L: Ledger>(
    alloc: Global,
    to: Route<'_>,
    encoder: &Encoder<'_, Gf16Tables>,
    made: &mut MadeRange,
    place: &mut P,
    link: &mut K,
    steps: &mut Steps<L>,
) -> Result<(), RouteStop>
    requires open { IsOpen (way_of to) (routes P.Place K.Link place.old link.old) }
    requires made { IsMadeRange gf16_coding encoder.now made.old }
    ensures sends { OnOk result (Sends (way_of to.entry) (all_datagrams gf16_coding encoder.now)
        (routes P.Place K.Link place.old link.old) (routes P.Place K.Link place.new link.new)) }
    ensures part { OnErr result (SendsPart (way_of to.entry) (all_datagrams gf16_coding encoder.now)
        (routes P.Place K.Link place.old link.old) (routes P.Place K.Link place.new link.new)) }
    ensures told { SendsTold (way_of to.entry) result (routes P.Place K.Link place.old link.old)
        (routes P.Place K.Link place.new link.new) }
{
    let packets = encoder.header().table.packets();
    let mut frame = Vec::new(alloc);
    let mut entry = Vec::new(alloc);
    let mut first = 0;
    while first < packets {
        let count = next_count(encoder, first);
        make_range(encoder, first, count, made, steps)?;
        put_range(to, encoder, made, &mut frame, &mut entry, place, link)?;
        first += count;
    }
    Ok(())
}

/// Sends the packets of a range that is made.
fn put_range<P: Place, K: Link>(
    to: Route<'_>,
    encoder: &Encoder<'_, Gf16Tables>,
    made: &MadeRange,
    frame: &mut Vec<u8>,
    entry: &mut Vec<u8>,
    place: &mut P,
    link: &mut K,
) -> Result<(), RouteStop>
    requires open { IsOpen (way_of to) (routes P.Place K.Link place.old link.old) }
    requires made { IsMadeRange gf16_coding encoder.now made.now }
    ensures sends { OnOk result (Sends (way_of to.entry)
        (range_datagrams encoder.now made.now.first made.now.count)
        (routes P.Place K.Link place.old link.old) (routes P.Place K.Link place.new link.new)) }
    ensures part { OnErr result (SendsPart (way_of to.entry)
        (range_datagrams encoder.now made.now.first made.now.count)
        (routes P.Place K.Link place.old link.old) (routes P.Place K.Link place.new link.new)) }
    ensures told { SendsTold (way_of to.entry) result (routes P.Place K.Link place.old link.old)
        (routes P.Place K.Link place.new link.new) }
{
    for p in 0..made.count {
        make_frame(encoder, made, made.first + p, frame)?;
        put_datagram(to, place, link, frame, entry)?;
    }
    Ok(())
}
