//! The end of a journal is mended.
ghost use Rattle.std.specs.Prelude.{◌≡◌, ◌≤◌, ◌<◌, ◌+◌, ◌^◌, [], length, OnOk};
ghost use Rattle.pet_base.specs.Causes.{HasCause};
ghost use Rattle.outside_disk.specs.Disk.{IfTold, Between};
ghost use Rattle.store_journal.specs.Text.{journal_text};
ghost use Rattle.store_journal.specs.inside.Ends.{MayBegin, Begins, MayCut, Cuts, MayClose, Closes};

use outside_disk::{Disk, cut_through, write_through};
use pet_base::Failed;

/// The text of a journal of this session that has no entry.
fn empty_text(session: &[u8; 8]) -> [u8; 13]
    ensures { result ≡ journal_text session.now [] }
{
    let mut text = [0u8; 13];
    text[..4].copy_from_slice(b"PETJ");
    text[4..12].copy_from_slice(session);
    text
}

/// Makes a file of at most 13 bytes a journal that has no entry.
pub fn begin<D: Disk>(disk: &mut D, session: &[u8; 8]) -> Result<(), Failed>
    ensures images { Between MayBegin (D.seen disk.old) (D.seen disk.new) }
    ensures begun { OnOk result (Between (Begins session.now) (D.seen disk.old) (D.seen disk.new)) }
    ensures cause { HasCause (D.faults disk.old) (D.faults disk.new) result }
{
    write_through(disk, 0, &empty_text(session))
}

/// Cuts off what stands behind the gate that ends the journal, where there is more.
pub fn cut_rest<D: Disk>(disk: &mut D, gate: u64, more: bool) -> Result<(), Failed>
    requires far { gate + 1 < 2 ^ 64 }
    requires place { IfTold (D.seen disk.old) (λ d. gate + 1 ≤ length d.bytes) }
    ensures images { Between (MayCut gate more) (D.seen disk.old) (D.seen disk.new) }
    ensures cut { OnOk result (Between (Cuts gate more) (D.seen disk.old) (D.seen disk.new)) }
    ensures long { OnOk result (IfTold (D.seen disk.new) (λ d. gate + 1 ≤ length d.bytes)) }
    ensures cause { HasCause (D.faults disk.old) (D.faults disk.new) result }
{
    if more {
        cut_through(disk, gate + 1)
    } else {
        Ok(())
    }
}

/// Closes the gate that is the last byte, where it has another value.
pub fn close<D: Disk>(disk: &mut D, gate: u64, value: u8) -> Result<(), Failed>
    requires { IfTold (D.seen disk.old) (λ d. gate + 1 ≤ length d.bytes) }
    ensures images { Between (MayClose gate value) (D.seen disk.old) (D.seen disk.new) }
    ensures closed { OnOk result (Between (Closes gate value) (D.seen disk.old) (D.seen disk.new)) }
    ensures cause { HasCause (D.faults disk.old) (D.faults disk.new) result }
{
    if value == 0 {
        Ok(())
    } else {
        write_through(disk, gate, &[0])
    }
}
