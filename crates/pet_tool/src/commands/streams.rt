//! The commands that read a stream and its priorities, or make a stream: the run of each, and the status of each of its ends.
ghost use Rattle.std.specs.Prelude.{◌≡◌, ◌≢◌, true};
ghost use Rattle.pet_base.specs.Lent.{seen, AreSame};
ghost use Rattle.pet_text.specs.declared.words.Command.TheVariants.{Plan, Check, Send, Bsend, Replay, Sample};
ghost use Rattle.pet_text.specs.Words.{has_form};
ghost use Rattle.pet_tool.specs.Commands.Streams.{status_of_plan, status_of_check, status_of_send, status_of_replay, status_of_sample};
ghost use Rattle.pet_tool.specs.inside.EndsAs.{EndsAs};

use crate::commands::End;
use crate::session_status::session_status;
use command_plan::{CheckEnd, PlanEnd, check, plan};
use command_replay::{ReplayEnd, replay};
use command_sample::{SampleEnd, sample};
use command_send::{SendEnd, bsend, send};
use pet_base::{Link, Outside, Place, Sink};
use pet_text::{End as EndWord, Name, PlanKind, Status};
use std::alloc::Global;
use std::sync::ledger::Ledger;

/// Runs `plan`.
pub(crate) fn run_plan<P: Place, K: Link, S: Sink, L: Ledger>(
    alloc: Global,
    stream: &Name,
    priority: &Name,
    outside: &mut Outside<P, K, S, L>,
) -> End
    ensures ends { EndsAs (Plan stream.now priority.now) (seen outside.old) result (seen outside.new) }
    ensures known { result ≢ End.Usage }
    ensures same { AreSame outside.old outside.new }
{
    let (stream, priority) = (stream.as_str(), priority.as_str());
    End::Plan(plan(alloc, stream, priority, outside.place))
}

/// The status of each end of `plan`.
pub(crate) fn plan_status(end: &PlanEnd) -> Status
    ensures status { result ≡ status_of_plan end.now }
    ensures known { result ≢ Status.Usage }
{
    match end {
        PlanEnd::Done(_) => Status::Done,
        PlanEnd::NoMemory => Status::NoMemory,
        PlanEnd::PlaceFault => Status::PlaceFault,
        PlanEnd::BadPriority(fault) => Status::BadPriority(*fault),
        PlanEnd::BadStream(scan) => Status::BadStream(*scan),
        PlanEnd::BadPlan(fault) => session_status(fault),
    }
}

/// Runs `check`.
pub(crate) fn run_check<P: Place, K: Link, S: Sink, L: Ledger>(
    alloc: Global,
    stream: &Name,
    priority: &Name,
    plan: &Name,
    outside: &mut Outside<P, K, S, L>,
) -> End
    ensures ends { EndsAs (Check stream.now priority.now plan.now) (seen outside.old) result (seen outside.new) }
    ensures known { result ≢ End.Usage }
    ensures same { AreSame outside.old outside.new }
{
    let (stream, priority) = (stream.as_str(), priority.as_str());
    let plan = plan.as_str();
    End::Check(check(alloc, stream, priority, plan, outside.place))
}

/// The status of each end of `check`.
pub(crate) fn check_status(end: &CheckEnd) -> Status
    ensures status { result ≡ status_of_check end.now }
    ensures known { result ≢ Status.Usage }
{
    match end {
        CheckEnd::Done(_) => Status::Done,
        CheckEnd::NoMemory => Status::NoMemory,
        CheckEnd::PlaceFault => Status::PlaceFault,
        CheckEnd::BadPriority(fault) => Status::BadPriority(*fault),
        CheckEnd::BadStream(scan) => Status::BadStream(*scan),
        CheckEnd::BadPlan(fault) => session_status(fault),
        CheckEnd::PlanLong => Status::BadPlan(PlanKind::PlanLong, 0),
        CheckEnd::Text(line) => Status::BadPlan(PlanKind::Text, *line),
        CheckEnd::Lines(lines) => Status::BadPlan(PlanKind::Lines, *lines),
        CheckEnd::NotLeast(group) => Status::NotLeast(*group),
    }
}

/// Runs `send`.
pub(crate) fn run_send<P: Place, K: Link, S: Sink, L: Ledger>(
    alloc: Global,
    stream: &Name,
    priority: &Name,
    to: &EndWord,
    outside: &mut Outside<P, K, S, L>,
) -> End
    requires form { has_form (Send stream.now priority.now to.now) ≡ true }
    ensures ends { EndsAs (Send stream.now priority.now to.now) (seen outside.old) result (seen outside.new) }
    ensures known { result ≢ End.Usage }
    ensures same { AreSame outside.old outside.new }
{
    let (stream, priority) = (stream.as_str(), priority.as_str());
    let to = to.route();
    End::Send(send(alloc, stream, priority, to, outside))
}

/// The status of each end of `send` and of `bsend`.
pub(crate) fn send_status(end: &SendEnd) -> Status
    ensures status { result ≡ status_of_send end.now }
    ensures known { result ≢ Status.Usage }
{
    match end {
        SendEnd::Done(_) => Status::Done,
        SendEnd::NoMemory => Status::NoMemory,
        SendEnd::PlaceFault => Status::PlaceFault,
        SendEnd::LinkFault => Status::LinkFault,
        SendEnd::BadPriority(fault) => Status::BadPriority(*fault),
        SendEnd::BadStream(scan) => Status::BadStream(*scan),
        SendEnd::BadPlan(fault) => session_status(fault),
        SendEnd::Changed(change) => Status::Changed(change.group, change.first, change.second),
    }
}

/// Runs `bsend`.
pub(crate) fn run_bsend<P: Place, K: Link, S: Sink, L: Ledger>(
    alloc: Global,
    stream: &Name,
    priority: &Name,
    to: &EndWord,
    outside: &mut Outside<P, K, S, L>,
) -> End
    requires form { has_form (Bsend stream.now priority.now to.now) ≡ true }
    ensures ends { EndsAs (Bsend stream.now priority.now to.now) (seen outside.old) result (seen outside.new) }
    ensures known { result ≢ End.Usage }
    ensures same { AreSame outside.old outside.new }
{
    let (stream, priority) = (stream.as_str(), priority.as_str());
    let to = to.route();
    End::Bsend(bsend(alloc, stream, priority, to, outside))
}

/// Runs `replay`.
pub(crate) fn run_replay<P: Place, K: Link, S: Sink, L: Ledger>(
    alloc: Global,
    stream: &Name,
    priority: &Name,
    script: &Name,
    outside: &mut Outside<P, K, S, L>,
) -> End
    ensures ends { EndsAs (Replay stream.now priority.now script.now) (seen outside.old) result (seen outside.new) }
    ensures known { result ≢ End.Usage }
    ensures same { AreSame outside.old outside.new }
{
    let (stream, priority) = (stream.as_str(), priority.as_str());
    let script = script.as_str();
    End::Replay(replay(
        alloc,
        stream,
        priority,
        script,
        outside.place,
        outside.steps,
    ))
}

/// The status of each end of `replay`.
pub(crate) fn replay_status(end: &ReplayEnd) -> Status
    ensures status { result ≡ status_of_replay end.now }
    ensures known { result ≢ Status.Usage }
{
    match end {
        ReplayEnd::Done(_) => Status::Done,
        ReplayEnd::NoMemory => Status::NoMemory,
        ReplayEnd::PlaceFault => Status::PlaceFault,
        ReplayEnd::BadPriority(fault) => Status::BadPriority(*fault),
        ReplayEnd::BadStream(scan) => Status::BadStream(*scan),
        ReplayEnd::BadPlan(fault) => session_status(fault),
        ReplayEnd::BadScript(line) => Status::BadScript(*line),
    }
}

/// Runs `sample`.
pub(crate) fn run_sample<P: Place, K: Link, S: Sink, L: Ledger>(
    alloc: Global,
    seed: u64,
    groups: u32,
    outside: &mut Outside<P, K, S, L>,
) -> End
    requires form { has_form (Sample seed groups) ≡ true }
    ensures ends { EndsAs (Sample seed groups) (seen outside.old) result (seen outside.new) }
    ensures known { result ≢ End.Usage }
    ensures same { AreSame outside.old outside.new }
{
    End::Sample(sample(alloc, seed, groups, outside.steps))
}

/// The status of each end of `sample`.
pub(crate) fn sample_status(end: &SampleEnd) -> Status
    ensures status { result ≡ status_of_sample end.now }
    ensures known { result ≢ Status.Usage }
{
    match end {
        SampleEnd::Done(_) => Status::Done,
        SampleEnd::NoMemory => Status::NoMemory,
    }
}
