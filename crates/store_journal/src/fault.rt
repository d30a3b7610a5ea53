//! Why a journal is not opened, and why a frame is not added.
ghost use Rattle.std.specs.Prelude.{◌≡◌};

use pet_base::{Failed, NoMemory};
use std::alloc::AllocError;

/// Why a journal is not opened.
#[derive(Clone, Copy, Debug, PartialEq, Eq)]
pub enum StartFault {
    /// The bytes do not begin with the mark, or the gate at this offset is refused.
    BadJournal(u64),
    /// The journal is of this session.
    OtherSession([u8; 8]),
    /// A call of the disk failed.
    DiskFault,
    /// No memory was found.
    NoMemory,
}

impl From<Failed> for StartFault {
    ghost use Rattle.store_journal.specs.declared.fault.StartFault.TheVariants.{DiskFault};

    ghost from_gives = { λ _ fault. fault ≡ DiskFault };

    fn from(_e: Failed) -> StartFault {
        StartFault::DiskFault
    }
}

impl From<NoMemory> for StartFault {
    ghost use Rattle.store_journal.specs.declared.fault.StartFault.TheVariants.{NoMemory};

    ghost from_gives = { λ _ fault. fault ≡ NoMemory };

    fn from(_e: NoMemory) -> StartFault {
        StartFault::NoMemory
    }
}

impl From<AllocError> for StartFault {
    ghost use Rattle.store_journal.specs.declared.fault.StartFault.TheVariants.{NoMemory};

    ghost from_gives = { λ _ fault. fault ≡ NoMemory };

    fn from(_e: AllocError) -> StartFault {
        StartFault::NoMemory
    }
}

/// Why a datagram has no verdict.
#[derive(Clone, Copy, Debug, PartialEq, Eq)]
pub enum KeepFault {
    /// An earlier call failed at the disk.
    Stopped,
    /// No memory was found.
    NoMemory,
    /// A call of the disk failed.
    DiskFault,
}

impl From<NoMemory> for KeepFault {
    ghost use Rattle.store_journal.specs.declared.fault.KeepFault.TheVariants.{NoMemory};

    ghost from_gives = { λ _ fault. fault ≡ NoMemory };

    fn from(_e: NoMemory) -> KeepFault {
        KeepFault::NoMemory
    }
}
