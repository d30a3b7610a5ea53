//! A frame is added to a journal.
ghost use Rattle.std.specs.Prelude.{◌≡◌, ◌≤◌, ◌<◌, ◌+◌, ◌^◌, length, take, OnOk};
ghost use Rattle.pet_base.specs.Causes.{HasCause};
ghost use Rattle.outside_disk.specs.Disk.{IfTold, Between};
ghost use Rattle.store_journal.specs.Text.{staged};
ghost use Rattle.store_journal.specs.AtRest.{MayAdd, Adds};
ghost use Rattle.store_journal.specs.inside.Adding.{MayStage, Stages, MayOpen, Opens};

use outside_disk::{Disk, write_through};
use pet_base::Failed;

/// Puts the length of a frame, the frame and a closed gate to the front of the buffer, and says how many bytes that is.
fn stage(buffer: &mut [u8], frame: &[u8]) -> usize
    requires short { length frame.now < 65536 }
    requires room { length frame.now + 3 ≤ length buffer.old }
    ensures count { result ≡ length frame.now + 3 }
    ensures bytes { take result buffer.new ≡ staged frame.now }
{
    let n = frame.len();
    let count = (n as u16).to_be_bytes();
    buffer[..2].copy_from_slice(&count);
    buffer[2..n + 2].copy_from_slice(frame);
    buffer[n + 2] = 0;
    n + 3
}

/// Writes what a frame is staged as behind the closed gate at this place, which is the last byte.
#[tactic(auto, using(crate::specs::laws::AtRestLaws::put_leaves, crate::specs::laws::AtRestLaws::put_is))]
fn put_behind<D: Disk>(disk: &mut D, gate: u64, bytes: &[u8]) -> Result<(), Failed>
    requires far { gate + 1 < 2 ^ 64 }
    requires place { IfTold (D.seen disk.old) (λ d. gate + 1 ≡ length d.bytes) }
    ensures images { Between (MayStage gate bytes.now) (D.seen disk.old) (D.seen disk.new) }
    ensures staged { OnOk result (Between (Stages gate bytes.now) (D.seen disk.old) (D.seen disk.new)) }
    ensures long { OnOk result (IfTold (D.seen disk.new) (λ d. gate ≤ length d.bytes)) }
    ensures cause { HasCause (D.faults disk.old) (D.faults disk.new) result }
{
    write_through(disk, gate + 1, bytes)
}

/// Opens the closed gate at this place.
#[tactic(auto, using(crate::specs::laws::AtRestLaws::open_leaves, crate::specs::laws::AtRestLaws::open_is))]
fn open_gate<D: Disk>(disk: &mut D, gate: u64) -> Result<(), Failed>
    requires { IfTold (D.seen disk.old) (λ d. gate ≤ length d.bytes) }
    ensures images { Between (MayOpen gate) (D.seen disk.old) (D.seen disk.new) }
    ensures opened { OnOk result (Between (Opens gate) (D.seen disk.old) (D.seen disk.new)) }
    ensures cause { HasCause (D.faults disk.old) (D.faults disk.new) result }
{
    write_through(disk, gate, &[1])
}

/// Adds a frame behind the closed gate at this place, which is the last byte, and then opens the gate. Both writes are on the
/// disk when they are done, and the second is begun only then. The frame stands in the buffer meanwhile.
#[tactic(auto, using(crate::specs::laws::AtRestLaws::first_leaves, crate::specs::laws::AtRestLaws::both_leave, crate::specs::laws::AtRestLaws::both_add))]
pub fn append<D: Disk>(
    disk: &mut D,
    gate: u64,
    buffer: &mut [u8],
    frame: &[u8],
) -> Result<(), Failed>
    requires short { length frame.now < 65536 }
    requires room { length frame.now + 3 ≤ length buffer.old }
    requires far { gate + 1 < 2 ^ 64 }
    requires place { IfTold (D.seen disk.old) (λ d. gate + 1 ≡ length d.bytes) }
    ensures images { Between (MayAdd gate frame.now) (D.seen disk.old) (D.seen disk.new) }
    ensures kept { OnOk result (Between (Adds gate frame.now) (D.seen disk.old) (D.seen disk.new)) }
    ensures cause { HasCause (D.faults disk.old) (D.faults disk.new) result }
{
    let count = stage(buffer, frame);
    put_behind(disk, gate, &buffer[..count])?;
    open_gate(disk, gate)
}
