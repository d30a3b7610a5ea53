//! The session of a stream and a priority file, with the marks of the stream's groups.
ghost use Rattle.std.specs.Prelude.{◌≡◌, ◌≤◌, IfOk, IfErr};
ghost use Rattle.pet_base.specs.Causes.{stops};
ghost use Rattle.pet_base.specs.Seen.{Seen, KeepsOutput, PlaceStops};
ghost use Rattle.priority_file.specs.Refusals.{priorities_of};
ghost use Rattle.session_source.specs.Sources.{IsSource, IsSourceIn, IsSourceFault, IsSourceFaultIn, has_failed};
ghost use Rattle.stream_session.specs.Tables.{IsSessionFormat};
ghost use Rattle.pet_base.specs.declared.limits.TheConstants.{MAX_SESSION};
ghost use Rattle.stream_session.specs.Marks.{marks_of};

use crate::both::read_both;
use crate::source::{Source, SourceFault};
use packet_frame::{FORMAT, Format};
use pet_base::Place;
use std::alloc::Global;
use stream_session::{GroupMark, MarkedPass};

/// The session that a stream and a priority file are, and the marks of the stream's groups.
#[derive(Drop)]
pub struct MarkedSource {
    pub source: Source,
    /// One for each group, in order.
    pub marks: Vec<GroupMark>,
}

/// Reads both files as `read_source` does, and keeps each group's mark.
///
/// Of the stream it holds the bytes of the group that has not ended, and the last portion.
///
/// # Errors
///
/// Those of `read_source`.
#[tactic(auto, using(stream_session::specs::laws::FormatLaws::today_is))]
pub fn read_marked<P: Place>(
    alloc: Global,
    stream: &str,
    priority: &str,
    place: &mut P,
) -> Result<MarkedSource, SourceFault>
    ensures source { IfOk result (λ marked. (s : IsSource (P.seen place.old).files stream.now priority.now marked.source)
        × (marked.marks.items ≡ marks_of (priorities_of s.file) s.bytes)) }
    ensures others { KeepsOutput (P.seen place.old) (P.seen place.new) }
    ensures later { (P.seen place.old).faults ≤ (P.seen place.new).faults }
    ensures cause { IfErr result (IsSourceFault (P.seen place.old) (P.seen place.new) stream.now
        priority.now) }
    ensures once { PlaceStops (stops has_failed result) (P.seen place.old) (P.seen place.new) }
{
    read_marked_in(alloc, &FORMAT, stream, priority, place)
}

/// The same in a format: the tables are those whose words its plans cut.
///
/// # Errors
///
/// Those of `read_source`, in this format.
pub fn read_marked_in<P: Place>(
    alloc: Global,
    format: &Format,
    stream: &str,
    priority: &str,
    place: &mut P,
) -> Result<MarkedSource, SourceFault>
    requires { IsSessionFormat format.now }
    ensures source { IfOk result (λ marked. (s : IsSourceIn format.now MAX_SESSION (P.seen place.old).files stream.now
        priority.now marked.source) × (marked.marks.items ≡ marks_of (priorities_of s.file) s.bytes)) }
    ensures others { KeepsOutput (P.seen place.old) (P.seen place.new) }
    ensures later { (P.seen place.old).faults ≤ (P.seen place.new).faults }
    ensures cause { IfErr result (IsSourceFaultIn format.now MAX_SESSION (P.seen place.old) (P.seen place.new)
        stream.now priority.now) }
    ensures once { PlaceStops (stops has_failed result) (P.seen place.old) (P.seen place.new) }
{
    let (rules, marked) = read_both::<P, MarkedPass>(alloc, format, stream, priority, place)?;
    Ok(MarkedSource {
        source: Source::of(rules, marked.plan),
        marks: marked.marks,
    })
}
