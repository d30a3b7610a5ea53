//! The commands that read files and write one: the run of each, and the status of each of its ends.
ghost use Rattle.std.specs.Prelude.{◌≡◌, ◌≢◌, true};
ghost use Rattle.pet_base.specs.Lent.{seen, AreSame};
ghost use Rattle.pet_text.specs.declared.words.Command.TheVariants.{Merge, Video, Migrate, Unwrap, Wrap};
ghost use Rattle.pet_text.specs.Words.{has_form};
ghost use Rattle.pet_tool.specs.Commands.Files.{status_of_merge, status_of_video, status_of_migrate, status_of_unwrap, status_of_wrap};
ghost use Rattle.pet_tool.specs.inside.EndsAs.{EndsAs};

use crate::commands::End;
use command_merge::{MergeEnd, merge};
use command_migrate::{MigrateEnd, migrate};
use command_video::{VideoEnd, video};
use mpeg_system::{UnwrapEnd, WrapEnd, unwrap_loop, wrap_loop};
use pet_base::{Link, Outside, Place, Sink};
use pet_text::{Name, Status};
use std::alloc::Global;
use std::sync::ledger::Ledger;

/// Runs `merge`.
pub(crate) fn run_merge<P: Place, K: Link, S: Sink, L: Ledger>(
    alloc: Global,
    first: &Name,
    second: &Name,
    out: &Name,
    outside: &mut Outside<P, K, S, L>,
) -> End
    ensures ends { EndsAs (Merge first.now second.now out.now) (seen outside.old) result (seen outside.new) }
    ensures known { result ≢ End.Usage }
    ensures same { AreSame outside.old outside.new }
{
    let (first, second) = (first.as_str(), second.as_str());
    let out = out.as_str();
    End::Merge(merge(alloc, first, second, out, outside.place, outside.steps))
}

/// The status of each end of `merge`.
pub(crate) fn merge_status(end: &MergeEnd) -> Status
    ensures status { result ≡ status_of_merge end.now }
    ensures known { result ≢ Status.Usage }
{
    match end {
        MergeEnd::Done(_) => Status::Done,
        MergeEnd::NoMemory => Status::NoMemory,
        MergeEnd::PlaceFault => Status::PlaceFault,
        MergeEnd::BadFirst(at, kind) => Status::BadStore(1, *at, *kind),
        MergeEnd::BadSecond(at, kind) => Status::BadStore(2, *at, *kind),
        MergeEnd::OtherSession => Status::OtherSession,
        MergeEnd::Clash(group, number) => Status::Clash(*group, *number),
        MergeEnd::Full(group) => Status::Full(*group),
    }
}

/// Runs `video`.
pub(crate) fn run_video<P: Place, K: Link, S: Sink, L: Ledger>(
    alloc: Global,
    store: &Name,
    out: &Name,
    outside: &mut Outside<P, K, S, L>,
) -> End
    ensures ends { EndsAs (Video store.now out.now) (seen outside.old) result (seen outside.new) }
    ensures known { result ≢ End.Usage }
    ensures same { AreSame outside.old outside.new }
{
    let (store, out) = (store.as_str(), out.as_str());
    End::Video(video(alloc, store, out, outside.place, outside.steps))
}

/// The status of each end of `video`.
pub(crate) fn video_status(end: &VideoEnd) -> Status
    ensures status { result ≡ status_of_video end.now }
    ensures known { result ≢ Status.Usage }
{
    match end {
        VideoEnd::Done(_) => Status::Done,
        VideoEnd::NoMemory => Status::NoMemory,
        VideoEnd::PlaceFault => Status::PlaceFault,
        VideoEnd::BadStore(at, kind) => Status::BadStore(1, *at, *kind),
        VideoEnd::BadTable(group) => Status::BadTable(*group),
    }
}

/// Runs `migrate`.
pub(crate) fn run_migrate<P: Place, K: Link, S: Sink, L: Ledger>(
    alloc: Global,
    store: &Name,
    out: &Name,
    outside: &mut Outside<P, K, S, L>,
) -> End
    ensures ends { EndsAs (Migrate store.now out.now) (seen outside.old) result (seen outside.new) }
    ensures known { result ≢ End.Usage }
    ensures same { AreSame outside.old outside.new }
{
    let (store, out) = (store.as_str(), out.as_str());
    End::Migrate(migrate(alloc, store, out, outside.place))
}

/// The status of each end of `migrate`.
pub(crate) fn migrate_status(end: &MigrateEnd) -> Status
    ensures status { result ≡ status_of_migrate end.now }
    ensures known { result ≢ Status.Usage }
{
    match end {
        MigrateEnd::Done(_) => Status::Done,
        MigrateEnd::NoMemory => Status::NoMemory,
        MigrateEnd::PlaceFault => Status::PlaceFault,
        MigrateEnd::AlreadyNew => Status::AlreadyNew,
        MigrateEnd::BadStore(at, kind) => Status::BadStore(1, *at, *kind),
        MigrateEnd::TooWide(group) => Status::TooWide(*group),
        MigrateEnd::Full(group) => Status::Full(*group),
    }
}

/// Runs `unwrap`.
pub(crate) fn run_unwrap<P: Place, K: Link, S: Sink, L: Ledger>(
    alloc: Global,
    file: &Name,
    id: u8,
    out: &Name,
    outside: &mut Outside<P, K, S, L>,
) -> End
    requires form { has_form (Unwrap file.now id out.now) ≡ true }
    ensures ends { EndsAs (Unwrap file.now id out.now) (seen outside.old) result (seen outside.new) }
    ensures known { result ≢ End.Usage }
    ensures same { AreSame outside.old outside.new }
{
    let (file, out) = (file.as_str(), out.as_str());
    End::Unwrap(unwrap_loop(alloc, file, id, out, outside.place))
}

/// The status of each end of `unwrap`.
pub(crate) fn unwrap_status(end: &UnwrapEnd) -> Status
    ensures status { result ≡ status_of_unwrap end.now }
    ensures known { result ≢ Status.Usage }
{
    match end {
        UnwrapEnd::Done(_) => Status::Done,
        UnwrapEnd::NoMemory => Status::NoMemory,
        UnwrapEnd::PlaceFault => Status::PlaceFault,
        UnwrapEnd::BadSystem(fault) => Status::BadSystem(*fault),
    }
}

/// Runs `wrap`.
pub(crate) fn run_wrap<P: Place, K: Link, S: Sink, L: Ledger>(
    alloc: Global,
    file: &Name,
    out: &Name,
    outside: &mut Outside<P, K, S, L>,
) -> End
    ensures ends { EndsAs (Wrap file.now out.now) (seen outside.old) result (seen outside.new) }
    ensures known { result ≢ End.Usage }
    ensures same { AreSame outside.old outside.new }
{
    let (file, out) = (file.as_str(), out.as_str());
    End::Wrap(wrap_loop(alloc, file, out, outside.place))
}

/// The status of each end of `wrap`.
pub(crate) fn wrap_status(end: &WrapEnd) -> Status
    ensures status { result ≡ status_of_wrap end.now }
    ensures known { result ≢ Status.Usage }
{
    match end {
        WrapEnd::Done(_) => Status::Done,
        WrapEnd::NoMemory => Status::NoMemory,
        WrapEnd::PlaceFault => Status::PlaceFault,
        WrapEnd::BadSystem(fault) => Status::BadSystem(*fault),
    }
}
