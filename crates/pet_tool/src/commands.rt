//! The commands: which of them the words give, how each ended, and the line and the status of its end. What is one command's is in the
//! file of its kind.
ghost use Rattle.std.specs.Prelude.{◌≡◌, ◌≢◌, [], true};
ghost use Rattle.pet_base.specs.Lent.{seen, AreSame};
ghost use Rattle.outside_routes.specs.Way.{way_of};
ghost use Rattle.pet_repair.specs.SentTo.{way_at};
ghost use Rattle.pet_text.specs.Words.{has_form};
ghost use Rattle.pet_tool.specs.Commands.{line_of, status_of};
ghost use Rattle.pet_tool.specs.inside.EndsAs.{EndsAs};

pub(crate) mod files;
pub(crate) mod routes;
pub(crate) mod streams;

use crate::commands::files::{
    merge_status, migrate_status, run_merge, run_migrate, run_unwrap, run_video, run_wrap,
    unwrap_status, video_status, wrap_status,
};
use crate::commands::routes::{
    breceive_status, receive_status, relay_status, repair_status, run_breceive, run_receive,
    run_relay, run_repair,
};
use crate::commands::streams::{
    check_status, plan_status, replay_status, run_bsend, run_check, run_plan, run_replay,
    run_sample, run_send, sample_status, send_status,
};
use arrayvec::ArrayVec;
use command_merge::MergeEnd;
use command_migrate::MigrateEnd;
use command_plan::{CheckEnd, PlanEnd};
use command_receive::ReceiveEnd;
use command_replay::ReplayEnd;
use command_sample::SampleEnd;
use command_send::SendEnd;
use command_video::VideoEnd;
use mpeg_system::{UnwrapEnd, WrapEnd};
use outside_routes::Route;
use pet_base::{Link, Outside, Place, Sink};
use pet_byte::ByteEnd;
use pet_repair::{RelayEnd, RepairEnd};
use pet_text::{
    Command, Status, write_least, write_merged, write_migrated, write_receive, write_relay,
    write_repaired, write_send, write_unwrapped, write_video, write_wrapped,
};
use std::alloc::Global;
use std::sync::ledger::Ledger;

/// How a run ended, before its line and that of its status are printed.
#[derive(Debug, Drop)]
pub enum End {
    /// The words have the form of no command.
    Usage,
    /// No memory was found to read the words.
    NoMemory,
    /// A run of `plan`.
    Plan(PlanEnd),
    /// A run of `check`.
    Check(CheckEnd),
    /// A run of `send`.
    Send(SendEnd),
    /// A run of `bsend`.
    Bsend(SendEnd),
    /// A run of `receive`.
    Receive(ReceiveEnd),
    /// A run of `merge`.
    Merge(MergeEnd),
    /// A run of `video`.
    Video(VideoEnd),
    /// A run of `unwrap`.
    Unwrap(UnwrapEnd),
    /// A run of `wrap`.
    Wrap(WrapEnd),
    /// A run of `migrate`.
    Migrate(MigrateEnd),
    /// A run of `replay`.
    Replay(ReplayEnd),
    /// A run of `sample`.
    Sample(SampleEnd),
    /// A run of `repair`.
    Repair(RepairEnd),
    /// A run of `breceive`.
    Breceive(ByteEnd),
    /// A run of `relay`.
    Relay(RelayEnd),
}

/// Runs a command that words give. Nothing is printed yet of its end.
pub(crate) fn run_command<P: Place, K: Link, S: Sink, L: Ledger>(
    alloc: Global,
    command: &Command,
    outside: &mut Outside<P, K, S, L>,
) -> End
    requires form { has_form command.now ≡ true }
    ensures ends { EndsAs command.now (seen outside.old) result (seen outside.new) }
    ensures known { result ≢ End.Usage }
    ensures same { AreSame outside.old outside.new }
{
    match command {
        Command::Plan { stream, priority } => run_plan(alloc, stream, priority, outside),
        Command::Check {
            stream,
            priority,
            plan,
        } => run_check(alloc, stream, priority, plan, outside),
        Command::Send {
            stream,
            priority,
            to,
        } => run_send(alloc, stream, priority, to, outside),
        Command::Bsend {
            stream,
            priority,
            to,
        } => run_bsend(alloc, stream, priority, to, outside),
        Command::Replay {
            stream,
            priority,
            script,
        } => run_replay(alloc, stream, priority, script, outside),
        Command::Sample { seed, groups } => run_sample(alloc, *seed, *groups, outside),
        Command::Receive {
            from,
            session,
            layers,
            store,
        } => run_receive(alloc, from, *session, layers, store, outside),
        Command::Breceive {
            from,
            session,
            layers,
        } => run_breceive(alloc, from, *session, layers, outside),
        Command::Relay { from, session, to } => run_relay(alloc, from, *session, to, outside),
        Command::Repair { store, to } => run_repair(alloc, store, to, outside),
        Command::Merge { first, second, out } => run_merge(alloc, first, second, out, outside),
        Command::Video { store, out } => run_video(alloc, store, out, outside),
        Command::Migrate { store, out } => run_migrate(alloc, store, out, outside),
        Command::Unwrap { file, id, out } => run_unwrap(alloc, file, *id, out, outside),
        Command::Wrap { file, out } => run_wrap(alloc, file, out, outside),
    }
}

/// The status of each end.
pub(crate) fn end_status(end: &End) -> Status
    ensures status { result ≡ status_of end.now }
    ensures known { result ≡ Status.Usage → end.now ≡ End.Usage }
{
    match end {
        End::Usage => Status::Usage,
        End::NoMemory => Status::NoMemory,
        End::Plan(end) => plan_status(end),
        End::Check(end) => check_status(end),
        End::Send(end) => send_status(end),
        End::Bsend(end) => send_status(end),
        End::Replay(end) => replay_status(end),
        End::Sample(end) => sample_status(end),
        End::Receive(end) => receive_status(end),
        End::Breceive(end) => breceive_status(end),
        End::Relay(end) => relay_status(end),
        End::Repair(end) => repair_status(end),
        End::Merge(end) => merge_status(end),
        End::Video(end) => video_status(end),
        End::Migrate(end) => migrate_status(end),
        End::Unwrap(end) => unwrap_status(end),
        End::Wrap(end) => wrap_status(end),
    }
}

/// The line of each end, or its text; it is made in `room`, which must be empty, where the end does not have it. It takes no memory.
pub(crate) fn end_line<'a>(end: &'a End, room: &'a mut ArrayVec<u8, 64>) -> &'a [u8]
    requires { room.old.items ≡ [] }
    ensures { result.now ≡ line_of end.now }
{
    match end {
        End::Plan(PlanEnd::Done(text)) => return text.as_slice(),
        End::Replay(ReplayEnd::Done(text)) => return text.as_slice(),
        End::Sample(SampleEnd::Done(text)) => return text.as_slice(),
        End::Check(CheckEnd::Done(groups)) => write_least(*groups, room),
        End::Send(SendEnd::Done(sent)) => {
            write_send(&sent.session, sent.groups, sent.datagrams, room)
        }
        End::Bsend(SendEnd::Done(sent)) => {
            write_send(&sent.session, sent.groups, sent.datagrams, room)
        }
        End::Receive(
            ReceiveEnd::Done(totals)
            | ReceiveEnd::Incomplete(totals)
            | ReceiveEnd::TurnsSpent(totals),
        ) => write_receive(totals.read, totals.kept, totals.shown, room),
        End::Breceive(
            ByteEnd::Done { read, kept, shown }
            | ByteEnd::Incomplete { read, kept, shown }
            | ByteEnd::TurnsSpent { read, kept, shown },
        ) => write_receive(*read, *kept, *shown, room),
        End::Relay(
            RelayEnd::Done { read, sent }
            | RelayEnd::Incomplete { read, sent }
            | RelayEnd::TurnsSpent { read, sent },
        ) => write_relay(*read, *sent, room),
        End::Merge(MergeEnd::Done(packets)) => write_merged(*packets, room),
        End::Video(VideoEnd::Done(bytes)) => write_video(*bytes, room),
        End::Unwrap(UnwrapEnd::Done(bytes)) => write_unwrapped(*bytes, room),
        End::Wrap(WrapEnd::Done(bytes)) => write_wrapped(*bytes, room),
        End::Migrate(MigrateEnd::Done(packets)) => write_migrated(*packets, room),
        End::Repair(RepairEnd::Done { groups, datagrams }) => {
            write_repaired(*groups, *datagrams, room)
        }
        End::Usage
        | End::NoMemory
        | End::Plan(_)
        | End::Check(_)
        | End::Send(_)
        | End::Bsend(_)
        | End::Receive(_)
        | End::Merge(_)
        | End::Video(_)
        | End::Unwrap(_)
        | End::Wrap(_)
        | End::Migrate(_)
        | End::Replay(_)
        | End::Sample(_)
        | End::Repair(_)
        | End::Breceive(_)
        | End::Relay(_) => {}
    }
    room.as_slice()
}

/// The name or the address of a route, and whether it is an address.
pub(crate) fn name_of(route: Route<'_>) -> (&str, bool)
    ensures { way_at result.1 result.0.now ≡ way_of route.entry }
{
    match route {
        Route::File(name) => (name, false),
        Route::Udp(address) => (address, true),
    }
}
