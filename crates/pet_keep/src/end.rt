//! How a run of `keep` ended, its status and its line.
ghost use Rattle.std.specs.Prelude.{◌≡◌, ◌≢◌, []};
ghost use Rattle.pet_keep.specs.Statuses.{status_of, line_of};

use crate::status::KeepStatus;
use arrayvec::ArrayVec;
use packet_reading::Totals;
use pet_text::write_receive;

/// How a run ended, before its line and that of its status are printed.
#[derive(Clone, Copy, Debug, PartialEq, Eq)]
pub enum KeepEnd {
    /// The words have not the form of `keep`.
    Usage,
    /// Every layer of every group is shown.
    Done(Totals),
    /// No memory was found.
    NoMemory,
    /// FROM could not be read, or STORE could not be written.
    PlaceFault,
    /// The link could not receive.
    LinkFault,
    /// The line of the port could not be printed.
    OutFault,
    /// The journal is of another session.
    OtherSession,
    /// The input has ended, and some layer is not shown.
    Incomplete(Totals),
    /// 16,777,216 datagrams were read.
    TurnsSpent(Totals),
    /// A call of the disk failed.
    DiskFault,
    /// The journal is refused at this offset.
    BadJournal(u64),
}

/// The status of each end.
pub(crate) fn end_status(end: &KeepEnd) -> KeepStatus
    ensures status { result ≡ status_of end.now }
    ensures known { end.now ≢ KeepEnd.Usage → result ≢ KeepStatus.Usage }
{
    match end {
        KeepEnd::Usage => KeepStatus::Usage,
        KeepEnd::Done(_) => KeepStatus::Done,
        KeepEnd::NoMemory => KeepStatus::NoMemory,
        KeepEnd::PlaceFault => KeepStatus::PlaceFault,
        KeepEnd::LinkFault => KeepStatus::LinkFault,
        KeepEnd::OutFault => KeepStatus::OutFault,
        KeepEnd::OtherSession => KeepStatus::OtherSession,
        KeepEnd::Incomplete(_) => KeepStatus::Incomplete,
        KeepEnd::TurnsSpent(_) => KeepStatus::TurnsSpent,
        KeepEnd::DiskFault => KeepStatus::DiskFault,
        KeepEnd::BadJournal(at) => KeepStatus::BadJournal(*at),
    }
}

/// Leaves the line of the end in `into`, which must be empty, where it has one. It takes no memory.
pub(crate) fn end_line(end: &KeepEnd, into: &mut ArrayVec<u8, 64>)
    requires { into.old.items ≡ [] }
    ensures { into.new.items ≡ line_of end.now }
{
    match end {
        KeepEnd::Done(totals) | KeepEnd::Incomplete(totals) | KeepEnd::TurnsSpent(totals) => {
            write_receive(totals.read, totals.kept, totals.shown, into);
        }
        KeepEnd::Usage
        | KeepEnd::NoMemory
        | KeepEnd::PlaceFault
        | KeepEnd::LinkFault
        | KeepEnd::OutFault
        | KeepEnd::OtherSession
        | KeepEnd::DiskFault
        | KeepEnd::BadJournal(_) => {}
    }
}
