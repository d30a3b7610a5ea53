//! Streams and what stands in them.
use crate::{EXAMPLE_PIECES, pieces_on_end};
use mpeg_scan::{Piece, Scan, Scanner};
use pet_base::Kind;
use std::alloc::{AllocError, Global};
use test_script::{STREAM, first_wrong};

/// An accepted stream, and the kind, the code and the bytes of each of its pieces.
type Accepted = (&'static [u8], &'static [(Kind, u8, u64)]);

/// The example stream, stuffing, which goes to the piece before it, streams of one piece, with stuffing, half a code and a
/// slice in it, and two groups.
static ACCEPTED: [Accepted; 6] = [
    (&STREAM, &EXAMPLE_PIECES),
    (
        &[0, 0, 1, 0xB3, 0, 0, 0, 1, 0xB7],
        &[(Kind::Head, 0xB3, 5), (Kind::Head, 0xB7, 4)],
    ),
    (&[0, 0, 0, 1, 0xB3, 5], &[(Kind::Head, 0xB3, 6)]),
    (&[0, 0, 1, 0xB3, 0, 0, 1], &[(Kind::Head, 0xB3, 7)]),
    (&[0, 0, 1, 0xB3, 0, 0, 1, 1], &[(Kind::Head, 0xB3, 8)]),
    (
        &[
            0, 0, 1, 0xB8, 1, 0, 0, 1, 0, 0, 8, 0, 0, 1, 0xB8, 2, 0, 0, 1, 0, 0, 8,
        ],
        &[
            (Kind::Head, 0xB8, 5),
            (Kind::I, 0, 6),
            (Kind::Head, 0xB8, 5),
            (Kind::I, 0, 6),
        ],
    ),
];

/// Feeds the stream in portions of so many bytes behind a first one, and ends it.
fn scan_in(
    alloc: Global,
    stream: &[u8],
    first: usize,
    size: usize,
) -> Result<(Vec<Piece>, Scanner, Result<(), Scan>), AllocError> {
    let mut pieces = Vec::new(alloc);
    let mut scanner = Scanner::new();
    let mut from = 0usize;
    let mut portion = first;
    for _ in 0..64 {
        if from >= stream.len() {
            break;
        }
        let end = from + portion.min(stream.len() - from);
        if let Err(scan) = scanner.feed(&stream[from..end], &mut pieces) {
            return Ok((pieces, scanner, Err(scan)));
        }
        from = end;
        portion = size;
    }
    let last = scanner.finish(&mut pieces);
    Ok((pieces, scanner, last))
}

/// Whether a stream has these pieces, in portions of so many bytes behind a first one.
fn has_pieces(
    alloc: Global,
    stream: &[u8],
    first: usize,
    size: usize,
    pieces: &[Piece],
) -> Result<bool, AllocError> {
    let (found, _, end) = scan_in(alloc, stream, first, size)?;
    Ok(end.is_ok() && found.as_slice() == pieces)
}

/// Whether the stream of a row has its pieces, wherever it is cut.
fn is_read(alloc: Global, row: &Accepted) -> Result<bool, AllocError> {
    let pieces = pieces_on_end(alloc, row.1)?;
    for first in 1..45usize {
        if !(has_pieces(alloc, row.0, first, 1, &pieces)?
            && has_pieces(alloc, row.0, first, 3, &pieces)?
            && has_pieces(alloc, row.0, first, 44, &pieces)?)
        {
            return Ok(false);
        }
    }
    Ok(true)
}

#[test]
fn reads_the_pieces_of_streams_cut_anywhere(rt: HostRuntime) {
    assert_eq!(rt;
        first_wrong(&ACCEPTED, |row| is_read(rt.alloc(), row)),
        None
    );
}

/// A stream, and why it is refused.
type Refused = (&'static [u8], Scan);

static REFUSED: [Refused; 9] = [
    (&[], Scan::Empty),
    // another byte first, a picture, a slice, and a pack
    (&[0x12, 0, 0, 1, 0xB3], Scan::NoHead(0)),
    (&[0, 0, 1, 0, 0, 8], Scan::NoHead(2)),
    (&[0, 0, 1, 1], Scan::NoHead(2)),
    (&[0, 0, 1, 0xBA], Scan::System(0)),
    // a later pack
    (&[0, 0, 1, 0xB3, 5, 0, 0, 1, 0xBA], Scan::System(5)),
    // a forbidden type, a reserved one, and none
    (&[0, 0, 1, 0xB3, 0, 0, 1, 0, 0, 0], Scan::PictureType(4, 0)),
    (
        &[0, 0, 1, 0xB3, 0, 0, 1, 0, 0, 0x28],
        Scan::PictureType(4, 5),
    ),
    (&[0, 0, 1, 0xB3, 0, 0, 1, 0, 0], Scan::ShortPicture(4)),
];

/// Whether a stream is refused so, and again at the next two calls, which leave the pieces as they are.
fn is_refused(alloc: Global, row: &Refused) -> Result<bool, AllocError> {
    let (mut pieces, mut scanner, end) = scan_in(alloc, row.0, 1, 1)?;
    let given = pieces.len();
    let fed = scanner.feed(&STREAM, &mut pieces);
    let finished = scanner.finish(&mut pieces);
    Ok([end, fed, finished] == [Err(row.1); 3] && pieces.len() == given)
}

#[test]
fn refuses_each_stream_again_at_the_next_calls(rt: HostRuntime) {
    assert_eq!(rt;
        first_wrong(&REFUSED, |row| is_refused(rt.alloc(), row)),
        None
    );
}
