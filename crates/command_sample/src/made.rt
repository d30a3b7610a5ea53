//! What `sample` makes of a seed: a stream, its session, and the cuts of its groups.
ghost use Rattle.std.specs.Prelude.{◌≡◌, ◌≢◌, ◌<◌, ◌≤◌, [], IfOk, IfErr, OnOk};
ghost use Rattle.pet_base.specs.declared.limits.TheConstants.{MAX_SAMPLE_GROUPS};
ghost use Rattle.mpeg_scan.specs.Pieces.{pieces_of};
ghost use Rattle.mpeg_scan.specs.Refusals.{IsAccepted, Refuses};
ghost use Rattle.priority_file.specs.Refusals.{priorities_of};
ghost use Rattle.stream_sample.specs.SampleStream.{sample_text};
ghost use Rattle.stream_session.specs.Accepted.{IsAcceptedSession};
ghost use Rattle.stream_session.specs.Number.{session_number};
ghost use Rattle.stream_session.specs.Sessions.{tables_in};
ghost use Rattle.stream_session.specs.Tables.{cuts_of_stream};
ghost use Rattle.command_sample.specs.SamplePriority.{sample_priority};
ghost use Rattle.command_sample.specs.inside.Making.{IsMade};

use layer_split::{GroupCut, SplitFault, split};
use mpeg_scan::{Piece, Scan, Scanner};
use pet_base::NoMemory;
use priority_file::{Priority, PriorityFault, read_priority};
use std::alloc::Global;
use stream_sample::sample_stream;
use stream_session::{Pass, SessionPlan, StreamFault};

/// The priority file of `sample`.
const PRIORITY: &str = "packets = 100\n\
[[layer]]\n\
name = \"base\"\n\
kinds = [\"head\", \"I\"]\n\
need = 60\n\
[[layer]]\n\
name = \"P\"\n\
kinds = [\"P\"]\n\
need = 80\n\
[[layer]]\n\
name = \"B\"\n\
kinds = [\"B\"]\n\
need = 95\n";

/// A stream with its session's number and tables, and the cuts of its groups.
#[derive(Drop)]
pub(crate) struct Made {
    pub(crate) stream: Vec<u8>,
    pub(crate) plan: SessionPlan,
    pub(crate) cuts: Vec<GroupCut>,
}

/// The stream of the seed, its session, and how its groups are cut.
pub(crate) fn make(alloc: Global, seed: u64, groups: u32) -> Result<Made, NoMemory>
    requires some { 0 < groups }
    requires few { groups ≤ MAX_SAMPLE_GROUPS }
    ensures made { IfOk result (λ made. IsMade made) }
    ensures stream { IfOk result (λ made. made.stream.items ≡ sample_text seed groups) }
{
    let mut stream = Vec::new(alloc);
    sample_stream(seed, groups, &mut stream)?;
    let priority = sample_priority(alloc)?;
    let plan = plan_of(alloc, &priority, &stream)?;
    let cuts = cuts_of(alloc, &priority, &stream)?;
    Ok(Made { stream, plan, cuts })
}

/// What the priority file stands for.
fn sample_priority(alloc: Global) -> Result<Priority, NoMemory>
    ensures { IfOk result (λ priority. priority ≡ priorities_of sample_priority) }
{
    match read_priority(alloc, priority_text()) {
        Ok(priority) => Ok(priority),
        Err(fault) => match fault {
            PriorityFault::NoMemory => Err(NoMemory),
            _ => unreachable!(),
        },
    }
}

/// The bytes of the priority file.
fn priority_text() -> &'static [u8]
    ensures { result.now ≡ sample_priority }
{
    PRIORITY.as_bytes()
}

/// The number of the stream's session, and the tables of its groups.
fn plan_of(alloc: Global, priority: &Priority, stream: &[u8]) -> Result<SessionPlan, NoMemory>
    requires priority { priority.now ≡ priorities_of sample_priority }
    requires accepted { IsAcceptedSession sample_priority stream.now }
    ensures number { IfOk result (λ plan. plan.number
        ≡ session_number sample_priority stream.now) }
    ensures tables { IfOk result (λ plan. plan.tables.items
        ≡ tables_in sample_priority stream.now) }
{
    let mut pass = Pass::new(alloc, priority, priority_text())?;
    pass.add(stream)?;
    match pass.finish() {
        Ok(plan) => Ok(plan),
        Err(fault) => match fault {
            StreamFault::NoMemory => Err(NoMemory),
            _ => unreachable!(),
        },
    }
}

/// How the groups of the stream are cut.
fn cuts_of(alloc: Global, priority: &Priority, stream: &[u8]) -> Result<Vec<GroupCut>, NoMemory>
    requires priority { priority.now ≡ priorities_of sample_priority }
    requires accepted { IsAcceptedSession sample_priority stream.now }
    ensures { IfOk result (λ cuts. cuts.items
        ≡ cuts_of_stream (priorities_of sample_priority) stream.now) }
{
    let pieces = pieces_of(alloc, stream)?;
    match split(alloc, &pieces, priority) {
        Ok(cuts) => Ok(cuts),
        Err(fault) => match fault {
            SplitFault::NoMemory => Err(NoMemory),
            _ => unreachable!(),
        },
    }
}

/// The pieces of the stream, which is accepted.
fn pieces_of(alloc: Global, stream: &[u8]) -> Result<Vec<Piece>, NoMemory>
    requires accepted { IsAccepted stream.now }
    ensures { IfOk result (λ pieces. pieces.items ≡ pieces_of stream.now) }
{
    let mut pieces = Vec::new(alloc);
    match scan(stream, &mut pieces) {
        Ok(()) => Ok(pieces),
        Err(refusal) => match refusal {
            Scan::NoMemory => Err(NoMemory),
            _ => unreachable!(),
        },
    }
}

/// Appends the pieces of the stream.
fn scan(stream: &[u8], pieces: &mut Vec<Piece>) -> Result<(), Scan>
    requires empty { pieces.old.items ≡ [] }
    ensures pieces { OnOk result (pieces.new.items ≡ pieces_of stream.now) }
    ensures refused { IfErr result (λ scan. scan ≢ Scan.NoMemory → Refuses stream.now scan) }
{
    let mut scanner = Scanner::new();
    match scanner.feed(stream, pieces) {
        Ok(()) => scanner.finish(pieces),
        Err(refusal) => Err(refusal),
    }
}
