//! The command `plan`.
ghost use Rattle.std.specs.Prelude.{◌≡◌, ◌≤◌, ℕ, List, All, length, IfOk, IfErr};
ghost use Rattle.pet_base.specs.declared.limits.TheConstants.{MAX_GROUPS};
ghost use Rattle.pet_base.specs.Causes.{stops};
ghost use Rattle.pet_base.specs.Seen.{Seen, PlaceStops};
ghost use Rattle.session_source.specs.Sources.{IsSourceFault, has_failed};
ghost use Rattle.text_plan.specs.PlanText.{plan_text};
ghost use Rattle.stream_session.specs.Sessions.{HasSession};
ghost use Rattle.command_plan.specs.Ends.{plan_failed};
ghost use Rattle.command_plan.specs.SessionPlan.{session_plan};
ghost use Rattle.command_plan.specs.Planned.{PlansSession};
ghost use Rattle.command_plan.specs.Plans.{Plans};

use mpeg_scan::Scan;
use pet_base::{NoMemory, Place};
use priority_file::PriorityFault;
use session_source::{Source, SourceFault, read_source};
use std::alloc::Global;
use stream_session::SessionFault;
use text_plan::plan_text;

/// How `plan` ended.
#[derive(Debug, PartialEq, Eq, Drop)]
pub enum PlanEnd {
    /// The plan text.
    Done(Vec<u8>),
    /// No memory was found.
    NoMemory,
    /// A file could not be read.
    PlaceFault,
    /// The priority file is refused.
    BadPriority(PriorityFault),
    /// The stream is refused.
    BadStream(Scan),
    /// There is no plan of the stream.
    BadPlan(SessionFault),
}

impl From<SourceFault> for PlanEnd {
    ghost use Rattle.command_plan.specs.Ends.{plan_end};

    ghost from_gives = { λ fault end. end ≡ plan_end fault };

    fn from(fault: SourceFault) -> PlanEnd {
        match fault {
            SourceFault::NoMemory => PlanEnd::NoMemory,
            SourceFault::Failed => PlanEnd::PlaceFault,
            SourceFault::Priority(fault) => PlanEnd::BadPriority(fault),
            SourceFault::Stream(scan) => PlanEnd::BadStream(scan),
            SourceFault::Plan(fault) => PlanEnd::BadPlan(fault),
        }
    }
}

/// Makes the plan text of the session that STREAM and PRIORITY are, once both are read and judged. The first failure of a file ends
/// it.
pub fn plan<P: Place>(alloc: Global, stream: &str, priority: &str, place: &mut P) -> PlanEnd
    ensures plans { Plans stream.now priority.now (P.seen place.old) (P.seen place.new) result }
    ensures completes { PlansSession stream.now priority.now (P.seen place.old) (P.seen place.new)
        result }
    ensures once { PlaceStops (plan_failed result) (P.seen place.old) (P.seen place.new) }
{
    match text_of_files(alloc, stream, priority, place) {
        Ok(text) => PlanEnd::Done(text),
        Err(fault) => PlanEnd::from(fault),
    }
}

/// The plan text of the session that the two files are.
fn text_of_files<P: Place>(
    alloc: Global,
    stream: &str,
    priority: &str,
    place: &mut P,
) -> Result<Vec<u8>, SourceFault>
    ensures text { IfOk result (λ text. (s : HasSession (P.seen place.old) stream.now priority.now)
        × (text.items ≡ session_plan s.priority_bytes s.stream_bytes)) }
    ensures cause { IfErr result
        (IsSourceFault (P.seen place.old) (P.seen place.new) stream.now priority.now) }
    ensures files { (P.seen place.new).files ≡ (P.seen place.old).files }
    ensures once { PlaceStops (stops has_failed result) (P.seen place.old) (P.seen place.new) }
{
    let source = read_source(alloc, stream, priority, place)?;
    match text_of(alloc, &source) {
        Ok(text) => Ok(text),
        Err(NoMemory) => Err(SourceFault::NoMemory),
    }
}

/// The plan text of a session.
fn text_of(alloc: Global, source: &Source) -> Result<Vec<u8>, NoMemory>
    requires few { length source.now.tables.items ≤ MAX_GROUPS }
    requires layered { All (λ t. length t.layers ≡ length source.now.priority.layers)
        source.now.tables.items }
    ensures text { IfOk result (λ text.
        text.items ≡ plan_text source.now.number source.now.priority source.now.tables.items) }
{
    let tables = source.tables.as_slice();
    let mut text = Vec::new(alloc);
    plan_text(alloc, &source.number, &source.priority, tables, &mut text)?;
    Ok(text)
}
