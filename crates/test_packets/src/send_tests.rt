//! The packets of the example session's group, sent to a file as entries, and by a link. The bytes were made outside.
ghost use Rattle.std.specs.Prelude.{◌≡◌, ◌<◌};

use crate::group_fixtures::{MESSAGE, header_of};
use outside_routes::{Route, RouteStop, open_route};
use packet_encoder::PacketEncoder;
use packet_frame::FORMAT;
use packet_sending::put_group;
use pet_base::{MemoryLink, MemoryPlace, Steps};
use pet_field::Gf16Tables;
use std::alloc::{AllocError, Global};
use std::marker::Brand;
use std::sync::ledger::{Blank, Ledger};
use std::test::Fail;
use test_script::packets;

/// Where the packets go; the calls of the place and the link that fail; what is answered; how many bytes are then put into the
/// file, and how many datagrams sent.
type Row = (
    Route<'static>,
    [&'static [u64]; 2],
    Result<(), RouteStop>,
    usize,
    usize,
);

const BY_FILE: Route<'static> = Route::File("d");

const BY_LINK: Route<'static> = Route::Udp("x:1");

/// The file is made first, and then six entries of 91 bytes are put; the link is aimed first, and then six datagrams are sent.
static ROWS: [Row; 6] = [
    (BY_FILE, [&[], &[]], Ok(()), 546, 0),
    (BY_FILE, [&[6], &[]], Err(RouteStop::Place), 455, 0),
    (BY_FILE, [&[0], &[]], Err(RouteStop::Place), 0, 0),
    (BY_LINK, [&[], &[]], Ok(()), 0, 6),
    (BY_LINK, [&[], &[6]], Err(RouteStop::Link), 0, 5),
    (BY_LINK, [&[], &[0]], Err(RouteStop::Link), 0, 0),
];

/// Sends the packets of the group to a new file of the place, or by the link.
fn send_example<L: Ledger>(
    alloc: Global,
    to: Route<'_>,
    place: &mut MemoryPlace,
    link: &mut MemoryLink,
    encoder: &PacketEncoder<'_, Gf16Tables>,
    blank: Blank,
) -> Result<(), RouteStop>
    requires name { blank.name ≡ L.name }
    requires parts { blank.parts ≡ L.parts }
    requires some { 0 < blank.parts }
    requires format { encoder.now.format ≡ FORMAT }
{
    let mut steps = Steps::<L>::new(blank);
    open_route(to, place, link)?;
    put_group(alloc, to, place, link, encoder, &mut steps)
}

/// Whether so many bytes are put, which begin with the first entry, and end with the last where they are those of all.
fn has_entries(bytes: &[u8], put: usize) -> bool {
    let entries = packets();
    bytes.len() == put
        && (put == 0 || bytes.starts_with(&entries[0]))
        && (put < 546 || bytes.ends_with(&entries[5]))
}

/// Whether these are the first so many packets, each without the two bytes of its entry.
fn are_first(sent: &[Vec<u8>], many: usize) -> bool {
    let entries = packets();
    sent.len() == many
        && many <= entries.len()
        && sent.iter().zip(&entries).all(|(datagram, entry)| entry.ends_with(datagram)
            && datagram.len() == 89)
}

/// Whether the packets of the group are sent as this row says.
fn is_so(
    alloc: Global,
    encoder: &PacketEncoder<'_, Gf16Tables>,
    row: &Row,
) -> Result<bool, AllocError>
    requires { encoder.now.format ≡ FORMAT }
{
    let mut place = MemoryPlace::new(alloc, Vec::from_slice(alloc, row.1[0])?);
    let mut link = MemoryLink::new(alloc, Vec::new(alloc), Vec::from_slice(alloc, row.1[1])?);
    let blank = Blank::new(1);
    let told = send_example::<Brand>(alloc, row.0, &mut place, &mut link, encoder, blank);
    let bytes = place.bytes_of("d").unwrap_or(&[]);
    Ok(told == row.2 && has_entries(bytes, row.3) && are_first(link.sent(), row.4))
}

#[test]
fn sends_the_packets_of_the_example_group(rt: HostRuntime) -> Result<(), Fail> {
    let alloc = rt.alloc();
    let field = Gf16Tables::new(alloc)?;
    let header = header_of(6, 5)?;
    assert_eq!(rt; header.table.words(), 35);
    let encoder = PacketEncoder::new(alloc, &field, FORMAT, header, &MESSAGE)?;
    let other = ROWS
        .iter()
        .position(|row| is_so(alloc, &encoder, row) != Ok(true));
    assert_eq!(rt; other, None);
    Ok(())
}
