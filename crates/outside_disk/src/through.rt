//! A write and a cut that are on the disk when they are done.
ghost use Rattle.std.specs.Prelude.{◌≤◌, length, OnOk};
ghost use Rattle.pet_base.specs.Causes.{HasCause};
ghost use Rattle.outside_disk.specs.Disk.{IfTold, Between, Torn, Cut, LeavesStep, WrittenThrough, CutThrough};

use crate::disk::Disk;
use pet_base::Failed;

/// Writes the bytes, and syncs. Where a crash left only what a read gave, it leaves that with any bytes in the range, at
/// each moment of the call; and what is written once the call succeeded.
pub fn write_through<D: Disk>(disk: &mut D, at: u64, bytes: &[u8]) -> Result<(), Failed>
    requires { IfTold (D.seen disk.old) (λ d. at ≤ length d.bytes) }
    ensures images { Between (LeavesStep (Torn at (length bytes.now))) (D.seen disk.old)
        (D.seen disk.new) }
    ensures written { OnOk result (Between (WrittenThrough at bytes.now) (D.seen disk.old)
        (D.seen disk.new)) }
    ensures cause { HasCause (D.faults disk.old) (D.faults disk.new) result }
{
    disk.write_at(at, bytes)?;
    disk.sync()
}

/// Cuts the file, and syncs. Where a crash left only what a read gave, it leaves a cut of that at each moment of the call; and
/// what is cut once the call succeeded.
pub fn cut_through<D: Disk>(disk: &mut D, to: u64) -> Result<(), Failed>
    requires { IfTold (D.seen disk.old) (λ d. to ≤ length d.bytes) }
    ensures images { Between (LeavesStep (Cut to)) (D.seen disk.old) (D.seen disk.new) }
    ensures cut { OnOk result (Between (CutThrough to) (D.seen disk.old) (D.seen disk.new)) }
    ensures cause { HasCause (D.faults disk.old) (D.faults disk.new) result }
{
    disk.cut(to)?;
    disk.sync()
}
