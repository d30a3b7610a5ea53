//! One file on a disk, as what a read gives and as what a crash may leave.
ghost use Rattle.std.specs.Prelude.{◌≡◌, ◌≤◌, ◌+◌, ℕ, length, take, drop, OnOk, OnErr, IfOk};
ghost use Rattle.pet_base.specs.Causes.{HasCause};
ghost use Rattle.outside_disk.specs.Disk.{DiskSeen, IfTold, IsSound, Between, Holds, Written, IsCutTo, Leaves, LeavesNoMore, LeavesTorn, LeavesCut, IsSynced};

use pet_base::Failed;

/// One file on a disk. What is said of bytes, ranges and images holds where they are told. A call fails only where the count
/// of faults rose in it.
pub trait Disk {
    /// What it reads as, what a crash may leave at each moment since a stated one, and the moment: told, or nothing of it.
    ghost seen: { Self → DiskSeen };

    /// How often a call failed. It stops at the last value of a u64.
    ghost faults: { Self → ℕ };

    /// The number of bytes. It changes nothing.
    fn length(&mut self) -> Result<u64, Failed>
        ensures number { IfOk result (λ n. IfTold (seen self.old) (λ disk. length disk.bytes ≡ n)) }
        ensures same { Between Leaves (seen self.old) (seen self.new) }
        ensures cause { HasCause (faults self.old) (faults self.new) result };

    /// Fills the buffer with the bytes from a place on. A file that has fewer is a failure. It changes nothing.
    fn read_at(&mut self, at: u64, into: &mut [u8]) -> Result<(), Failed>
        requires { IfTold (seen self.old) (λ disk. at + length into.old ≤ length disk.bytes) }
        ensures filled { OnOk result (IfTold (seen self.old) (λ disk. Holds disk.bytes at into.new)) }
        ensures same { Between Leaves (seen self.old) (seen self.new) }
        ensures cause { HasCause (faults self.old) (faults self.new) result };

    /// Writes over what is there, and past the end. Until a sync that succeeds, a crash may leave any bytes in the range, and
    /// of the part past the old end none.
    fn write_at(&mut self, at: u64, bytes: &[u8]) -> Result<(), Failed>
        requires { IfTold (seen self.old) (λ disk. at ≤ length disk.bytes) }
        ensures written { OnOk result (Between (Written at bytes.now) (seen self.old) (seen self.new)) }
        ensures images { Between (LeavesTorn at (length bytes.now)) (seen self.old) (seen self.new) }
        ensures cause { HasCause (faults self.old) (faults self.new) result };

    /// Cuts the file to a length. Until a sync that succeeds, a crash may leave any bytes past it, up to the old length.
    fn cut(&mut self, to: u64) -> Result<(), Failed>
        requires { IfTold (seen self.old) (λ disk. to ≤ length disk.bytes) }
        ensures cut { OnOk result (Between (IsCutTo to) (seen self.old) (seen self.new)) }
        ensures images { Between (LeavesCut to) (seen self.old) (seen self.new) }
        ensures cause { HasCause (faults self.old) (faults self.new) result };

    /// After it, a crash leaves what a read gives. It changes nothing of that, and one that fails changes nothing.
    fn sync(&mut self) -> Result<(), Failed>
        ensures synced { OnOk result (IfTold (seen self.new) IsSynced) }
        ensures same { Between LeavesNoMore (seen self.old) (seen self.new) }
        ensures failed { OnErr result (Between Leaves (seen self.old) (seen self.new)) }
        ensures cause { HasCause (faults self.old) (faults self.new) result };

    /// What it reads as is one of its images, and an image now is one of those since each moment before.
    ghost sound: { (disk : Self) → IfTold (seen disk) IsSound };
}
