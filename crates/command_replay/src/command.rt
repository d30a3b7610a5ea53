//! The command `replay`.
ghost use Rattle.std.specs.Prelude.{◌≡◌, IfOk, IfErr};
ghost use Rattle.pet_base.specs.Causes.{stops};
ghost use Rattle.pet_base.specs.Seen.{Seen, PlaceStops};
ghost use Rattle.command_replay.specs.declared.command.ReplayEnd.TheVariants.{Done};
ghost use Rattle.command_replay.specs.Ends.{replay_failed};
ghost use Rattle.command_replay.specs.Replayed.{ReplaysSession};
ghost use Rattle.command_replay.specs.Replays.{Replays};
ghost use Rattle.command_replay.specs.inside.Reading.{IsTextOf};

use crate::playing::play;
use crate::script::read_events;
use mpeg_scan::Scan;
use pet_base::{NoMemory, Place, Steps};
use priority_file::PriorityFault;
use session_source::{SourceFault, read_whole};
use std::alloc::Global;
use std::sync::ledger::Ledger;
use stream_session::SessionFault;

/// How `replay` ended.
#[derive(Debug, PartialEq, Eq, Drop)]
pub enum ReplayEnd {
    /// The lines of all events, and then those of the receivers that have kept something.
    Done(Vec<u8>),
    /// No memory was found.
    NoMemory,
    /// A file could not be read.
    PlaceFault,
    /// The priority file is refused.
    BadPriority(PriorityFault),
    /// The stream is refused.
    BadStream(Scan),
    /// There is no plan of the stream, whose session may have 67,108,864 bytes.
    BadPlan(SessionFault),
    /// The first line of the script that is no event of the session, counted from 1; 0 where the script has more than
    /// 1,048,576 bytes.
    BadScript(u64),
}

impl From<NoMemory> for ReplayEnd {
    ghost use Rattle.command_replay.specs.declared.command.ReplayEnd.TheVariants.{NoMemory as no_memory};

    ghost from_gives = { λ _ end. end ≡ no_memory };

    fn from(_e: NoMemory) -> ReplayEnd {
        ReplayEnd::NoMemory
    }
}

impl From<SourceFault> for ReplayEnd {
    ghost use Rattle.command_replay.specs.Ends.{replay_end};

    ghost from_gives = { λ fault end. end ≡ replay_end fault };

    fn from(fault: SourceFault) -> ReplayEnd {
        match fault {
            SourceFault::NoMemory => ReplayEnd::NoMemory,
            SourceFault::Failed => ReplayEnd::PlaceFault,
            SourceFault::Priority(fault) => ReplayEnd::BadPriority(fault),
            SourceFault::Stream(scan) => ReplayEnd::BadStream(scan),
            SourceFault::Plan(fault) => ReplayEnd::BadPlan(fault),
        }
    }
}

/// Carries out the events of SCRIPT in a world of eight receivers of the session that STREAM and PRIORITY are, and answers
/// the lines of the layers that they show, and of what the receivers have kept then. The files are read and judged one by
/// one: PRIORITY, STREAM, SCRIPT, which is read whole before the first event. The first failure of a file ends it.
pub fn replay<P: Place, L: Ledger>(
    alloc: Global,
    stream: &str,
    priority: &str,
    script: &str,
    place: &mut P,
    steps: &mut Steps<L>,
) -> ReplayEnd
    ensures replays { Replays (P.seen place.old) (P.seen place.new) stream.now priority.now script.now
        result }
    ensures files { (P.seen place.new).files ≡ (P.seen place.old).files }
    ensures completes { ReplaysSession stream.now priority.now script.now (P.seen place.old)
        (P.seen place.new) result }
    ensures once { PlaceStops (replay_failed result) (P.seen place.old) (P.seen place.new) }
{
    match text_of_files(alloc, stream, priority, script, place, steps) {
        Ok(text) => ReplayEnd::Done(text),
        Err(end) => end,
    }
}

/// The text of the script's events.
fn text_of_files<P: Place, L: Ledger>(
    alloc: Global,
    stream: &str,
    priority: &str,
    script: &str,
    place: &mut P,
    steps: &mut Steps<L>,
) -> Result<Vec<u8>, ReplayEnd>
    ensures text { IfOk result (IsTextOf (P.seen place.old) stream.now priority.now script.now) }
    ensures cause { IfErr result
        (Replays (P.seen place.old) (P.seen place.new) stream.now priority.now script.now) }
    ensures files { (P.seen place.new).files ≡ (P.seen place.old).files }
    ensures once { PlaceStops (stops replay_failed result) (P.seen place.old) (P.seen place.new) }
{
    let whole = read_whole(alloc, stream, priority, place)?;
    let events = read_events(alloc, script, &whole.source, place)?;
    let text = play(alloc, whole, &events, steps)?;
    Ok(text)
}
