//! How `keep` ends: the numbers and the lines of its statuses.
ghost use Rattle.std.specs.Prelude.{◌≡◌, []};
ghost use Rattle.pet_keep.specs.Statuses.{code_of, fault_text};

use arrayvec::ArrayVec;
use text_pieces::{append_text, number_line};

/// The status of a run of `keep`.
#[derive(Clone, Copy, Debug, PartialEq, Eq)]
pub enum KeepStatus {
    /// Every layer of every group is shown.
    Done,
    /// The words have not the form of `keep`.
    Usage,
    /// There was no memory.
    NoMemory,
    /// A file could not be read or written.
    PlaceFault,
    /// The link could not receive.
    LinkFault,
    /// A line could not be printed.
    OutFault,
    /// The journal is of another session.
    OtherSession,
    /// The input ended before every layer was shown.
    Incomplete,
    /// The input has 16,777,216 datagrams or more.
    TurnsSpent,
    /// The journal's disk could not be read, written, cut or synced.
    DiskFault,
    /// The journal is refused at this offset.
    BadJournal(u64),
}

impl KeepStatus {
    /// The exit status of the program.
    pub fn code(&self) -> u8
        ensures { result ≡ code_of self.now }
    {
        match self {
            KeepStatus::Done => 0,
            KeepStatus::Usage => 1,
            KeepStatus::NoMemory => 2,
            KeepStatus::PlaceFault => 3,
            KeepStatus::LinkFault => 4,
            KeepStatus::OutFault => 5,
            KeepStatus::OtherSession => 10,
            KeepStatus::Incomplete => 12,
            KeepStatus::TurnsSpent => 13,
            KeepStatus::DiskFault => 22,
            KeepStatus::BadJournal(_) => 23,
        }
    }
}

/// Leaves the line that tells of the status in `into`, which must be empty; nothing for `Done` and `OutFault`. It takes no memory.
pub(crate) fn fault_line(status: &KeepStatus, into: &mut ArrayVec<u8, 64>)
    requires { into.old.items ≡ [] }
    ensures { into.new.items ≡ fault_text status.now }
{
    match status {
        KeepStatus::Done | KeepStatus::OutFault => {}
        KeepStatus::Usage => append_text("fault usage\n", into),
        KeepStatus::NoMemory => append_text("fault memory\n", into),
        KeepStatus::PlaceFault => append_text("fault place\n", into),
        KeepStatus::LinkFault => append_text("fault link\n", into),
        KeepStatus::OtherSession => append_text("fault session\n", into),
        KeepStatus::Incomplete => append_text("fault incomplete\n", into),
        KeepStatus::TurnsSpent => append_text("fault turns\n", into),
        KeepStatus::DiskFault => append_text("fault disk\n", into),
        KeepStatus::BadJournal(at) => number_line("fault journal ", *at, into),
    }
}
