//! A journal is opened.
ghost use Rattle.std.specs.Prelude.{◌≡◌, ◌≤◌, ◌<◌, ◌+◌, ◌^◌, length, IfOk, IfErr, OnOk, OnErr};
ghost use Rattle.pet_base.specs.Causes.{Rose, HasCause};
ghost use Rattle.outside_disk.specs.Disk.{IfTold, Between, Leaves, Reads, IsSynced};
ghost use Rattle.store_journal.specs.AtRest.{IsOpen};
ghost use Rattle.store_journal.specs.Receives.{Causes};
ghost use Rattle.store_journal.specs.Opening.{IsReadAs, IsStartFault, Reached, LeavesSets, KeepsDisk};
ghost use Rattle.store_journal.specs.inside.Heads.{HasHead, IsHeadFault, IsNoJournal};
ghost use Rattle.store_journal.specs.inside.Ends.{MayMend, Mends};
ghost use Rattle.store_journal.specs.inside.Opens.{StaysAlike, OpensAs};

use crate::fault::StartFault;
use crate::mending::{begin, close, cut_rest};
use crate::reading::{End, read_entries};
use crate::receive::Receive;
use outside_disk::Disk;
use pet_base::{Failed, Steps};
use std::sync::ledger::Ledger;

/// Whether the first bytes of a file are the mark and the session.
fn judge_head(head: &[u8; 12], session: &[u8; 8]) -> Result<(), StartFault>
    ensures ok { OnOk result (HasHead session.now head.now) }
    ensures err { IfErr result (IsHeadFault session.now head.now) }
{
    let mark = b"PETJ";
    if head[..4] != mark[..] {
        return Err(StartFault::BadJournal(0));
    }
    let mut named = [0u8; 8];
    named.copy_from_slice(&head[4..]);
    if named[..] != session[..] {
        return Err(StartFault::OtherSession(named));
    }
    Ok(())
}

/// Cuts off what stands behind the gate that ends a journal, and closes that gate.
#[tactic(auto, using(crate::specs::laws::OpeningLaws::mend_cut))]
fn mend<D: Disk>(disk: &mut D, end: End) -> Result<(), Failed>
    requires far { end.gate + 1 < 2 ^ 64 }
    requires place { IfTold (D.seen disk.old) (λ d. end.gate + 1 ≤ length d.bytes) }
    ensures images { Between (MayMend end) (D.seen disk.old) (D.seen disk.new) }
    ensures mended { OnOk result (Between (Mends end) (D.seen disk.old) (D.seen disk.new)) }
    ensures later { D.faults disk.old ≤ D.faults disk.new }
    ensures cause { OnErr result (Rose (D.faults disk.old) (D.faults disk.new)) }
{
    cut_rest(disk, end.gate, end.more)?;
    close(disk, end.gate, end.value)
}

/// Reads the first bytes of a file, and judges them.
fn check_head<D: Disk>(disk: &mut D, session: &[u8; 8]) -> Result<(), StartFault>
    requires { IfTold (D.seen disk.old) (λ d. 13 < length d.bytes) }
    ensures ok { OnOk result (IfTold (D.seen disk.old) (λ d. HasHead session.now d.bytes)) }
    ensures refused { IfErr result (λ f. IfTold (D.seen disk.old)
        (λ d. IsNoJournal session.now d.bytes f)) }
    ensures same { Between Leaves (D.seen disk.old) (D.seen disk.new) }
    ensures later { D.faults disk.old ≤ D.faults disk.new }
    ensures cause { IfErr result (Causes (D.faults disk.old) (D.faults disk.new)) }
{
    let mut head = [0u8; 12];
    disk.read_at(0, &mut head)?;
    judge_head(&head, session)
}

/// Opens a journal of more than 13 bytes: reads its entries, and mends its end. It answers where its last gate stands.
fn reopen<R: Receive, D: Disk, L: Ledger>(
    disk: &mut D,
    receiver: &mut R,
    buffer: &mut [u8],
    session: &[u8; 8],
    size: u64,
    steps: &mut Steps<L>,
) -> Result<u64, StartFault>
    requires room { 65535 ≤ length buffer.old }
    requires long { 13 < size }
    requires size { IfTold (D.seen disk.old) (λ d. length d.bytes ≡ size) }
    ensures images { Between (StaysAlike R.keep (R.set receiver.old) session.now)
        (D.seen disk.old) (D.seen disk.new) }
    ensures open { IfOk result (λ gate. Between (OpensAs R.keep (R.set receiver.old) session.now
        gate (R.set receiver.new)) (D.seen disk.old) (D.seen disk.new)) }
    ensures reached { IfOk result (λ gate. Reached R.keep R.cost (R.set receiver.old) gate
        (R.set receiver.new) steps.old steps.new) }
    ensures read { OnOk result (IfTold (D.seen disk.old) (IsReadAs R.keep (R.set receiver.old)
        session.now (R.set receiver.new))) }
    ensures unchanged { IfErr result (KeepsDisk (D.seen disk.old) (D.seen disk.new)) }
    ensures refused { IfErr result (λ f. IfTold (D.seen disk.old)
        (λ d. IsStartFault R.keep (R.set receiver.old) session.now d.bytes f)) }
    ensures later { D.faults disk.old ≤ D.faults disk.new }
    ensures cause { IfErr result (Causes (D.faults disk.old) (D.faults disk.new)) }
{
    check_head(disk, session)?;
    let end = read_entries(disk, receiver, buffer, size, steps)?;
    mend(disk, end)?;
    Ok(end.gate)
}

/// Syncs, and says how many bytes there are.
fn settle<D: Disk>(disk: &mut D) -> Result<u64, Failed>
    ensures same { Between Reads (D.seen disk.old) (D.seen disk.new) }
    ensures synced { OnOk result (IfTold (D.seen disk.new) IsSynced) }
    ensures size { IfOk result (λ n. IfTold (D.seen disk.new) (λ d. length d.bytes ≡ n)) }
    ensures cause { HasCause (D.faults disk.old) (D.faults disk.new) result }
{
    disk.sync()?;
    disk.length()
}

/// Opens a journal on a disk that has just been synced, or begins one. It answers where the last gate stands.
fn open_synced<R: Receive, D: Disk, L: Ledger>(
    disk: &mut D,
    receiver: &mut R,
    buffer: &mut [u8],
    session: &[u8; 8],
    size: u64,
    steps: &mut Steps<L>,
) -> Result<u64, StartFault>
    requires room { 65535 ≤ length buffer.old }
    requires size { IfTold (D.seen disk.old) (λ d. length d.bytes ≡ size) }
    ensures images { Between (StaysAlike R.keep (R.set receiver.old) session.now)
        (D.seen disk.old) (D.seen disk.new) }
    ensures open { IfOk result (λ gate. Between (OpensAs R.keep (R.set receiver.old) session.now
        gate (R.set receiver.new)) (D.seen disk.old) (D.seen disk.new)) }
    ensures reached { IfOk result (λ gate. Reached R.keep R.cost (R.set receiver.old) gate
        (R.set receiver.new) steps.old steps.new) }
    ensures read { OnOk result (IfTold (D.seen disk.old) (IsReadAs R.keep (R.set receiver.old)
        session.now (R.set receiver.new))) }
    ensures unchanged { IfErr result (KeepsDisk (D.seen disk.old) (D.seen disk.new)) }
    ensures refused { IfErr result (λ f. IfTold (D.seen disk.old)
        (λ d. IsStartFault R.keep (R.set receiver.old) session.now d.bytes f)) }
    ensures later { D.faults disk.old ≤ D.faults disk.new }
    ensures cause { IfErr result (Causes (D.faults disk.old) (D.faults disk.new)) }
{
    if size <= 13 {
        begin(disk, session)?;
        Ok(12)
    } else {
        reopen(disk, receiver, buffer, session, size, steps)
    }
}

/// Opens the journal of a session, or begins one on a file of at most 13 bytes, and hands its frames to the receiver. It answers
/// where the closed gate stands that is then its last byte. It first syncs; what it cuts off, closes or begins is on the disk when
/// it is done. A refusal of the text changes nothing of it.
pub fn open<R: Receive, D: Disk, L: Ledger>(
    disk: &mut D,
    receiver: &mut R,
    buffer: &mut [u8],
    session: &[u8; 8],
    steps: &mut Steps<L>,
) -> Result<u64, StartFault>
    requires room { 65535 ≤ length buffer.old }
    ensures images { Between (LeavesSets R.keep (R.set receiver.old) session.now)
        (D.seen disk.old) (D.seen disk.new) }
    ensures open { IfOk result (λ gate. Between (λ old new. IsOpen R.keep (R.set receiver.old)
        session.now gate (R.set receiver.new) new) (D.seen disk.old) (D.seen disk.new)) }
    ensures reached { IfOk result (λ gate. Reached R.keep R.cost (R.set receiver.old) gate
        (R.set receiver.new) steps.old steps.new) }
    ensures read { OnOk result (IfTold (D.seen disk.old) (IsReadAs R.keep (R.set receiver.old)
        session.now (R.set receiver.new))) }
    ensures unchanged { IfErr result (KeepsDisk (D.seen disk.old) (D.seen disk.new)) }
    ensures refused { IfErr result (λ f. IfTold (D.seen disk.old)
        (λ d. IsStartFault R.keep (R.set receiver.old) session.now d.bytes f)) }
    ensures later { D.faults disk.old ≤ D.faults disk.new }
    ensures cause { IfErr result (Causes (D.faults disk.old) (D.faults disk.new)) }
{
    let size = settle(disk)?;
    open_synced(disk, receiver, buffer, session, size, steps)
}
