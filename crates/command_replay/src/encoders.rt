//! What makes the packets of a session whose stream is held.
ghost use Rattle.std.specs.Prelude.{◌≡◌, ◌<◌, length, Some, slice_get, IfOk};
ghost use Rattle.mpeg_scan.specs.Pieces.{pieces_of};
ghost use Rattle.mpeg_scan.specs.Refusals.{IsAccepted};
ghost use Rattle.packet_session.specs.Datagrams.{AreEncoders};
ghost use Rattle.stream_session.specs.Tables.{cuts_of_stream};
ghost use Rattle.command_replay.specs.inside.Held.{IsHeld, IsEncoderAt, held_session};

use layer_split::{GroupCut, SplitFault, message, split};
use mpeg_scan::{Piece, Scan, Scanner};
use packet_frame::Header;
use pet_base::NoMemory;
use pet_encode::Encoder;
use pet_field::Gf16Tables;
use session_source::WholeSource;
use std::alloc::Global;

/// The encoders of the session's groups, in order.
pub(crate) fn session_encoders<'f>(
    alloc: Global,
    field: &'f Gf16Tables,
    whole: &WholeSource,
) -> Result<Vec<Encoder<'f, Gf16Tables>>, NoMemory>
    requires held { IsHeld whole.now }
    ensures encoders { IfOk result (λ encoders. AreEncoders (held_session whole.now) encoders.items) }
{
    let cuts = group_cuts(alloc, whole)?;
    let mut encoders = Vec::new(alloc);
    for group in 0..cuts.len() {
        let encoder = group_encoder(alloc, field, whole, group, &cuts[group])?;
        encoders.push(encoder)?;
    }
    Ok(encoders)
}

/// The encoder of the group of this number, whose cut this is.
fn group_encoder<'f>(
    alloc: Global,
    field: &'f Gf16Tables,
    whole: &WholeSource,
    group: usize,
    cut: &GroupCut,
) -> Result<Encoder<'f, Gf16Tables>, NoMemory>
    requires held { IsHeld whole.now }
    requires there { slice_get (cuts_of_stream whole.now.source.priority whole.now.bytes.items) group ≡ Some cut.now }
    ensures encoder { IfOk result (λ encoder. IsEncoderAt (held_session whole.now) group encoder) }
{
    let mut bytes = Vec::new(alloc);
    message(&whole.bytes, cut, &mut bytes)?;
    let header = Header {
        session: whole.source.number,
        groups: whole.source.tables.len() as u32,
        group: group as u32,
        table: whole.source.tables[group].clone()?,
    };
    Encoder::new(alloc, field, header, &bytes)
}

/// The cuts of the stream's groups.
fn group_cuts(alloc: Global, whole: &WholeSource) -> Result<Vec<GroupCut>, NoMemory>
    requires held { IsHeld whole.now }
    ensures cuts { IfOk result (λ cuts. cuts.items
        ≡ cuts_of_stream whole.now.source.priority whole.now.bytes.items) }
{
    let pieces = stream_pieces(alloc, &whole.bytes)?;
    match split(alloc, &pieces, &whole.source.priority) {
        Ok(cuts) => Ok(cuts),
        Err(fault) => Err(not_split(fault)),
    }
}

/// The pieces of a stream that is accepted.
fn stream_pieces(alloc: Global, stream: &[u8]) -> Result<Vec<Piece>, NoMemory>
    requires accepted { IsAccepted stream.now }
    ensures pieces { IfOk result (λ pieces. pieces.items ≡ pieces_of stream.now) }
{
    let mut scanner = Scanner::new();
    let mut pieces = Vec::new(alloc);
    match scanner.feed(stream, &mut pieces) {
        Ok(()) => {}
        Err(fault) => return Err(not_scanned(fault)),
    }
    match scanner.finish(&mut pieces) {
        Ok(()) => Ok(pieces),
        Err(fault) => Err(not_scanned(fault)),
    }
}

/// Why a stream that is accepted was not scanned.
fn not_scanned(fault: Scan) -> NoMemory
    requires { fault ≡ Scan.NoMemory }
{
    let _ = fault;
    NoMemory
}

/// Why the pieces of a stream that has a session were not cut into groups.
fn not_split(fault: SplitFault) -> NoMemory
    requires { fault ≡ SplitFault.NoMemory }
{
    let _ = fault;
    NoMemory
}
