//! The session of a stream and a priority file that a place holds.
ghost use Rattle.std.specs.Prelude.{◌≡◌, ◌≤◌, IfOk, IfErr};
ghost use Rattle.pet_base.specs.Causes.{stops};
ghost use Rattle.pet_base.specs.Seen.{Seen, KeepsOutput, PlaceStops};
ghost use Rattle.session_source.specs.Sources.{IsSource, IsSourceFault, has_failed};

use crate::both::read_both;
use mpeg_scan::Scan;
use packet_frame::FORMAT;
use pet_base::{Place, Stop};
use priority_file::{Priority, PriorityFault};
use std::alloc::Global;
use stream_session::{Pass, SessionFault, SessionPlan, StreamFault};
use stripe_plan::Table;

/// The session that a stream and a priority file are.
#[derive(Drop)]
pub struct Source {
    pub priority: Priority,
    /// The first eight bytes of a digest of the priority file and the stream.
    pub number: [u8; 8],
    /// One for each group, in order.
    pub tables: Vec<Table>,
}

impl Source {
    /// The session of this priority and plan.
    pub(crate) fn of(priority: Priority, plan: SessionPlan) -> Source
        ensures { result ≡ record { priority = priority; number = plan.number; tables = plan.tables } }
    {
        let number = plan.number;
        Source {
            priority,
            number,
            tables: plan.tables,
        }
    }
}

/// Why two files are no session: the first that holds of the priority file, the stream and the plan, in this order.
#[derive(Clone, Copy, Debug, PartialEq, Eq)]
pub enum SourceFault {
    /// No memory was found.
    NoMemory,
    /// A call of the place failed.
    Failed,
    /// The priority file is refused. `PriorityFault::NoMemory` never stands here.
    Priority(PriorityFault),
    /// The stream is refused. `Scan::NoMemory` never stands here.
    Stream(Scan),
    /// There is no plan of the stream. `SessionFault::NoMemory` never stands here.
    Plan(SessionFault),
}

impl From<Stop> for SourceFault {
    ghost use Rattle.session_source.specs.Sources.{of_stop};

    ghost from_gives = { λ e fault. fault ≡ of_stop e };

    fn from(e: Stop) -> SourceFault {
        match e {
            Stop::NoMemory => SourceFault::NoMemory,
            Stop::Failed => SourceFault::Failed,
        }
    }
}

impl From<PriorityFault> for SourceFault {
    ghost use Rattle.session_source.specs.Sources.{of_priority};

    ghost from_gives = { λ e fault. fault ≡ of_priority e };

    fn from(e: PriorityFault) -> SourceFault {
        match e {
            PriorityFault::NoMemory => SourceFault::NoMemory,
            fault => SourceFault::Priority(fault),
        }
    }
}

impl From<StreamFault> for SourceFault {
    ghost use Rattle.session_source.specs.Sources.{of_stream};

    ghost from_gives = { λ e fault. fault ≡ of_stream e };

    fn from(e: StreamFault) -> SourceFault {
        match e {
            StreamFault::Stream(scan) => SourceFault::Stream(scan),
            StreamFault::Plan(fault) => SourceFault::Plan(fault),
            StreamFault::NoMemory => SourceFault::NoMemory,
        }
    }
}

/// Reads both files, and answers the session that they are. The priority file is read and judged first. The stream is
/// then read to its end, or one byte past the most that a stream may have, portion by portion, and none of it is held.
///
/// # Errors
///
/// The first that comes of a failure of the place, want of memory, the refusal of the priority file, that of the stream,
/// and that of its plan.
#[tactic(auto, using(stream_session::specs::laws::FormatLaws::today_is))]
pub fn read_source<P: Place>(
    alloc: Global,
    stream: &str,
    priority: &str,
    place: &mut P,
) -> Result<Source, SourceFault>
    ensures source { IfOk result (IsSource (P.seen place.old).files stream.now priority.now) }
    ensures others { KeepsOutput (P.seen place.old) (P.seen place.new) }
    ensures later { (P.seen place.old).faults ≤ (P.seen place.new).faults }
    ensures cause { IfErr result (IsSourceFault (P.seen place.old) (P.seen place.new) stream.now
        priority.now) }
    ensures once { PlaceStops (stops has_failed result) (P.seen place.old) (P.seen place.new) }
{
    let (rules, plan) = read_both::<P, Pass>(alloc, &FORMAT, stream, priority, place)?;
    Ok(Source::of(rules, plan))
}
