//! The reading of a script.
ghost use Rattle.std.specs.Prelude.{◌≡◌, ◌≤◌, false, length, Ok, IfOk, IfErr};
ghost use Rattle.pet_base.specs.declared.limits.TheConstants.{MAX_GROUPS};
ghost use Rattle.pet_base.specs.Causes.{stops};
ghost use Rattle.pet_base.specs.Seen.{Seen, PlaceStops};
ghost use Rattle.command_replay.specs.Ends.{replay_failed};
ghost use Rattle.command_replay.specs.Scripts.{events_in as events_of};
ghost use Rattle.command_replay.specs.inside.Reading.{HasEvents, HasNoEvents, HasNoEventsIn};

use crate::command::ReplayEnd;
use outside_files::read_file;
use pet_base::{Event, MAX_SCRIPT, Place, Stop};
use session_source::Source;
use std::alloc::Global;
use text_script::{ScriptFault, read_script};

/// The events of the script of this name, which is read whole.
pub(crate) fn read_events<P: Place>(
    alloc: Global,
    script: &str,
    source: &Source,
    place: &mut P,
) -> Result<Vec<Event>, ReplayEnd>
    requires few { length source.now.tables.items ≤ MAX_GROUPS }
    ensures events { IfOk result (λ events. HasEvents (P.seen place.old) script.now (length source.now.tables.items)
        source.now.priority.packets events.items) }
    ensures cause { IfErr result (HasNoEvents (P.seen place.old) (P.seen place.new) script.now
        (length source.now.tables.items) source.now.priority.packets) }
    ensures files { (P.seen place.new).files ≡ (P.seen place.old).files }
    ensures later { (P.seen place.old).faults ≤ (P.seen place.new).faults }
    ensures once { PlaceStops (stops replay_failed result) (P.seen place.old) (P.seen place.new) }
{
    let groups = source.tables.len() as u32;
    match read_file(alloc, script, u64::from(MAX_SCRIPT), place) {
        Ok(bytes) => events_in(alloc, bytes.as_slice(), groups, source.priority.packets),
        Err(Stop::NoMemory) => Err(ReplayEnd::NoMemory),
        Err(Stop::Failed) => Err(ReplayEnd::PlaceFault),
    }
}

/// The events in the bytes of a script, of which at most one past the limit are given.
fn events_in(
    alloc: Global,
    bytes: &[u8],
    groups: u32,
    packets: u16,
) -> Result<Vec<Event>, ReplayEnd>
    ensures events { IfOk result (λ events. events_of groups packets bytes.now ≡ Ok events.items) }
    ensures cause { IfErr result (HasNoEventsIn groups packets bytes.now) }
    ensures calm { stops replay_failed result ≡ false }
{
    if bytes.len() as u64 > u64::from(MAX_SCRIPT) {
        return Err(ReplayEnd::BadScript(0));
    }
    match read_script(alloc, bytes, groups, packets) {
        Ok(events) => Ok(events),
        Err(ScriptFault::Line(line)) => Err(ReplayEnd::BadScript(line)),
        Err(ScriptFault::NoMemory) => Err(ReplayEnd::NoMemory),
    }
}
