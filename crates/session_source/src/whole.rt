//! The session of a stream and a priority file, with the bytes of the stream.
ghost use Rattle.std.specs.Prelude.{◌≡◌, ◌≤◌, IfOk, IfErr};
ghost use Rattle.pet_base.specs.declared.limits.TheConstants.{MAX_REPLAY_SESSION};
ghost use Rattle.pet_base.specs.Causes.{stops};
ghost use Rattle.pet_base.specs.Seen.{Seen, KeepsOutput, PlaceStops};
ghost use Rattle.session_source.specs.Sources.{IsSourceWithin, IsSourceFaultWithin, has_failed};
ghost use Rattle.session_source.specs.inside.Holding.{HasHeld, IsHeldPlanOf};

use crate::both::read_both;
use crate::source::{Source, SourceFault};
use packet_frame::{FORMAT, Format};
use pet_base::{MAX_REPLAY_SESSION, NoMemory, Place};
use priority_file::Priority;
use std::alloc::Global;
use stream_session::{Pass, SessionPlan, StreamFault, StreamReader};

/// The session that a stream and a priority file are, and the bytes of the stream.
#[derive(Drop)]
pub struct WholeSource {
    pub source: Source,
    pub bytes: Vec<u8>,
}

/// The session of a stream, and its bytes.
#[derive(Drop)]
pub(crate) struct HeldPlan {
    pub plan: SessionPlan,
    pub bytes: Vec<u8>,
}

/// A pass that holds all that it has read.
#[derive(Drop)]
pub(crate) struct HeldPass {
    pass: Pass,
    bytes: Vec<u8>,
}

impl StreamReader for HeldPass {
    type Answer = HeldPlan;

    ghost limit = { MAX_REPLAY_SESSION };

    ghost has_read = { HasHeld };

    ghost answers = { IsHeldPlanOf };

    fn begin(alloc: Global, priority: &Priority, file: &[u8]) -> Result<HeldPass, NoMemory> {
        Ok(HeldPass {
            pass: Pass::new(alloc, priority, file)?,
            bytes: Vec::new(alloc),
        })
    }

    fn read(&mut self, portion: &[u8]) -> Result<(), NoMemory> {
        self.pass.add(portion)?;
        self.bytes.extend_from_slice(portion)?;
        Ok(())
    }

    fn end(self, format: &Format) -> Result<HeldPlan, StreamFault> {
        let bytes = self.bytes;
        let plan = self.pass.finish_in(format, MAX_REPLAY_SESSION)?;
        Ok(HeldPlan { plan, bytes })
    }
}

/// Reads both files as `read_source` does, and holds the bytes of the stream. A session may have at most
/// `MAX_REPLAY_SESSION` bytes: the first group with which it passes them is refused.
///
/// # Errors
///
/// Those of `read_source`.
#[tactic(auto, using(stream_session::specs::laws::FormatLaws::today_is))]
pub fn read_whole<P: Place>(
    alloc: Global,
    stream: &str,
    priority: &str,
    place: &mut P,
) -> Result<WholeSource, SourceFault>
    ensures source { IfOk result (λ whole. (s : IsSourceWithin MAX_REPLAY_SESSION (P.seen place.old).files stream.now
        priority.now whole.source) × (whole.bytes.items ≡ s.bytes)) }
    ensures others { KeepsOutput (P.seen place.old) (P.seen place.new) }
    ensures later { (P.seen place.old).faults ≤ (P.seen place.new).faults }
    ensures cause { IfErr result (IsSourceFaultWithin MAX_REPLAY_SESSION (P.seen place.old) (P.seen place.new)
        stream.now priority.now) }
    ensures once { PlaceStops (stops has_failed result) (P.seen place.old) (P.seen place.new) }
{
    let (rules, held) = read_both::<P, HeldPass>(alloc, &FORMAT, stream, priority, place)?;
    Ok(WholeSource {
        source: Source::of(rules, held.plan),
        bytes: held.bytes,
    })
}
