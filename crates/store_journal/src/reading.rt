//! The entries of a journal are read.
ghost use Rattle.std.specs.Prelude.{◌≡◌, ◌≤◌, ◌<◌, ◌+◌, ◌^◌, ◌∷◌, length, take, drop, true, IfOk, IfErr, IfSome};
ghost use Rattle.std.specs.Int.{w16, to_be_bytes};
ghost use Rattle.pet_base.specs.Causes.{HasCause};
ghost use Rattle.outside_disk.specs.Disk.{IfTold, Between, Leaves, Reads};
ghost use Rattle.store_journal.specs.Opening.{Reached};
ghost use Rattle.store_journal.specs.Receives.{Causes};
ghost use Rattle.store_journal.specs.inside.Entry.{IsEntry};
ghost use Rattle.store_journal.specs.inside.Turns.{Turns, IsWithin, IsRefusedAt, AreRead, IsRefused, Advances, IsTaken, IsNotTaken};

use crate::fault::StartFault;
use crate::receive::Receive;
use outside_disk::Disk;
use pet_base::{Failed, Steps};
use std::sync::ledger::Ledger;

/// The byte at a place.
fn byte_at<D: Disk>(disk: &mut D, at: u64) -> Result<u8, Failed>
    requires { IfTold (D.seen disk.old) (λ d. at < length d.bytes) }
    ensures byte { IfOk result (λ b. IfTold (D.seen disk.old)
        (λ d. drop at d.bytes ≡ b ∷ drop (at + 1) d.bytes)) }
    ensures same { Between Leaves (D.seen disk.old) (D.seen disk.new) }
    ensures cause { HasCause (D.faults disk.old) (D.faults disk.new) result }
{
    let mut byte = [0u8];
    disk.read_at(at, &mut byte)?;
    Ok(byte[0])
}

/// The number in two bytes, which spell it.
fn number_of(two: &[u8; 2]) -> u16
    ensures spells { two.now ≡ to_be_bytes w16 result }
    ensures small { result < 65536 }
{
    u16::from_be_bytes(*two)
}

/// The number in two bytes at a place.
fn count_at<D: Disk>(disk: &mut D, at: u64) -> Result<u16, Failed>
    requires { IfTold (D.seen disk.old) (λ d. at + 2 ≤ length d.bytes) }
    ensures count { IfOk result (λ n. IfTold (D.seen disk.old)
        (λ d. take 2 (drop at d.bytes) ≡ to_be_bytes w16 n)) }
    ensures small { IfOk result (λ n. n < 65536) }
    ensures same { Between Leaves (D.seen disk.old) (D.seen disk.new) }
    ensures cause { HasCause (D.faults disk.old) (D.faults disk.new) result }
{
    let mut count = [0u8; 2];
    disk.read_at(at, &mut count)?;
    Ok(number_of(&count))
}

/// Reads the entry behind a gate, where that is whole and another gate follows it. The frame comes to the front of the buffer.
fn entry_at<D: Disk>(
    disk: &mut D,
    gate: u64,
    size: u64,
    buffer: &mut [u8],
) -> Result<Option<u16>, Failed>
    requires room { 65535 ≤ length buffer.old }
    requires within { gate + 1 < size }
    requires size { IfTold (D.seen disk.old) (λ d. length d.bytes ≡ size) }
    ensures entry { IfOk result (λ e. IfTold (D.seen disk.old)
        (λ d. IsEntry e buffer.new gate d.bytes)) }
    ensures within { IfOk result (λ e. IfSome e (λ n. gate + 3 + n < size)) }
    ensures small { IfOk result (λ e. IfSome e (λ n. n < 65536)) }
    ensures same { Between Reads (D.seen disk.old) (D.seen disk.new) }
    ensures cause { HasCause (D.faults disk.old) (D.faults disk.new) result }
{
    let rest = size - gate - 1;
    if rest < 2 {
        return Ok(None);
    }
    let n = count_at(disk, gate + 1)?;
    if rest - 2 <= u64::from(n) {
        return Ok(None);
    }
    disk.read_at(gate + 3, &mut buffer[..usize::from(n)])?;
    Ok(Some(n))
}

/// The gate that ends a journal.
#[derive(Clone, Copy)]
pub struct End {
    /// Where it stands.
    pub gate: u64,
    pub value: u8,
    /// Whether there is more behind it.
    pub more: bool,
}

/// What a gate leads to.
#[derive(Clone, Copy)]
pub enum Turn {
    /// It ends the journal.
    Ends(End),
    /// Behind it is an entry that is kept, and the next gate is here.
    Goes(u64),
}

/// Hands a frame to the receiver, which is to keep it.
fn take_frame<R: Receive, L: Ledger>(
    receiver: &mut R,
    gate: u64,
    frame: &[u8],
    steps: &mut Steps<L>,
) -> Result<Turn, StartFault>
    requires { gate + 3 + length frame.now < 2 ^ 64 }
    ensures kept { IfOk result (IsTaken R.keep R.cost gate frame.now (R.set receiver.old)
        (R.set receiver.new) steps.old steps.new) }
    ensures refused { IfErr result (IsNotTaken R.keep gate (R.set receiver.old) frame.now) }
{
    if receiver.offer(frame, steps)? {
        Ok(Turn::Goes(gate + 3 + frame.len() as u64))
    } else {
        Err(StartFault::BadJournal(gate))
    }
}

/// Reads what a gate leads to, and hands the frame behind it to the receiver.
fn turn_at<R: Receive, D: Disk, L: Ledger>(
    disk: &mut D,
    receiver: &mut R,
    buffer: &mut [u8],
    gate: u64,
    size: u64,
    steps: &mut Steps<L>,
) -> Result<Turn, StartFault>
    requires room { 65535 ≤ length buffer.old }
    requires within { gate < size }
    requires size { IfTold (D.seen disk.old) (λ d. length d.bytes ≡ size) }
    ensures turn { IfOk result (λ t. IfTold (D.seen disk.old)
        (λ d. Turns R.keep gate t (R.set receiver.old) (R.set receiver.new) d.bytes)) }
    ensures advances { IfOk result (λ t. Advances R.keep R.cost gate t (R.set receiver.old)
        (R.set receiver.new) steps.old steps.new) }
    ensures within { IfOk result (IsWithin gate size) }
    ensures refused { IfErr result (λ f. IfTold (D.seen disk.old)
        (λ d. IsRefusedAt R.keep gate (R.set receiver.old) d.bytes f)) }
    ensures same { Between Reads (D.seen disk.old) (D.seen disk.new) }
    ensures later { D.faults disk.old ≤ D.faults disk.new }
    ensures cause { IfErr result (Causes (D.faults disk.old) (D.faults disk.new)) }
{
    let value = byte_at(disk, gate)?;
    let more = gate + 1 < size;
    if !more || value != 1 {
        return Ok(Turn::Ends(End { gate, value, more }));
    }
    match entry_at(disk, gate, size, buffer)? {
        None => Err(StartFault::BadJournal(gate)),
        Some(n) => take_frame(receiver, gate, &buffer[..usize::from(n)], steps),
    }
}

/// Reads the entries of a file of more than 13 bytes, from its first gate on, and hands their frames to the receiver.
pub fn read_entries<R: Receive, D: Disk, L: Ledger>(
    disk: &mut D,
    receiver: &mut R,
    buffer: &mut [u8],
    size: u64,
    steps: &mut Steps<L>,
) -> Result<End, StartFault>
    requires room { 65535 ≤ length buffer.old }
    requires long { 13 < size }
    requires size { IfTold (D.seen disk.old) (λ d. length d.bytes ≡ size) }
    ensures read { IfOk result (λ end. IfTold (D.seen disk.old)
        (λ d. AreRead R.keep end (R.set receiver.old) (R.set receiver.new) d.bytes)) }
    ensures reached { IfOk result (λ end. Reached R.keep R.cost (R.set receiver.old) end.gate
        (R.set receiver.new) steps.old steps.new) }
    ensures within { IfOk result (λ end. end.gate < size) }
    ensures refused { IfErr result (λ f. IfTold (D.seen disk.old)
        (λ d. IsRefused R.keep (R.set receiver.old) d.bytes f)) }
    ensures same { Between Reads (D.seen disk.old) (D.seen disk.new) }
    ensures later { D.faults disk.old ≤ D.faults disk.new }
    ensures cause { IfErr result (Causes (D.faults disk.old) (D.faults disk.new)) }
{
    let mut gate = 12;
    'gates: loop {
        match turn_at(disk, receiver, buffer, gate, size, steps)? {
            Turn::Ends(end) => return Ok(end),
            Turn::Goes(next) => gate = next,
        }
    }
}
