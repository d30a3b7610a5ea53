//! A receiver whose packets stand in a journal before they are acknowledged.
ghost use Rattle.std.specs.Prelude.{◌≡◌, ◌≤◌, ◌+◌, true, false, Err, vec_len, IfOk, IfErr, OnOk, OnErr};
ghost use Rattle.pet_base.specs.declared.limits.TheConstants.{MAX_PACKETS};
ghost use Rattle.pet_base.specs.Causes.{Rose};
ghost use Rattle.outside_disk.specs.Disk.{IfTold, Between, LeavesOnly};
ghost use Rattle.packet_frame.specs.Refusals.{fields_of};
ghost use Rattle.packet_verdicts.specs.KeptSet.{IsKeptSet, empty_set};
ghost use Rattle.packet_verdicts.specs.Verdicts.{verdict_of, is_kept as judged_kept, opens, after};
ghost use Rattle.pet_receive.specs.Arrivals.{kept_set};
ghost use Rattle.store_journal.specs.Receives.{Causes};
ghost use Rattle.store_journal.specs.Opening.{IsStartFault, KeepsDisk};
ghost use Rattle.store_journal.specs.declared.fault.KeepFault.TheVariants.{Stopped, DiskFault, NoMemory};
ghost use Rattle.store_keeper.specs.Journal.{keep_frame, frame_cost, StandsFor, StandsWith};
ghost use Rattle.store_keeper.specs.Keeper.{Starts, CountsFrames, ReadsAsBefore, EachSince, EachNow};

use crate::kept_frames::KeptFrames;
use field_rows::Rows;
use outside_disk::Disk;
use packet_verdicts::Verdict;
use pet_base::Steps;
use pet_receive::Receiver;
use std::alloc::{AllocError, Global};
use std::marker::Model;
use std::sync::ledger::Ledger;
use store_journal::{KeepFault, StartFault, append, open};

/// Room for the length of a frame, the longest frame and a gate.
const ROOM: usize = 65_538;

/// A receiver of one session and the journal of what it has kept, on a disk. A packet is acknowledged, by the verdict `Kept`, only
/// once it stands in the journal and a crash cannot take it. After a call has failed at the disk, no other call changes anything.
#[derive(Drop)]
pub struct Keeper<'f, F: Rows, D: Disk> {
    receiver: Receiver<'f, F>,
    disk: D,
    /// Room for what is written behind a gate.
    buffer: Vec<u8>,
    /// Where the closed gate stands that ends the journal.
    gate: u64,
    stopped: bool,
}

impl<'f, F: Rows, D: Disk> Model for Keeper<'f, F, D> {
    ghost use Rattle.std.specs.Prelude.{vec_len};
    ghost use Rattle.pet_receive.specs.Arrivals.{kept_set};
    ghost use Rattle.store_keeper.specs.Keeper.{KeeperState, IsKeeping};

    ghost Value = { KeeperState F.Elem D };

    ghost view = { λ k. record { receiver = k.receiver; disk = k.disk; stopped = k.stopped } };

    ghost invariant = { λ k. IsKeeping (kept_set k.receiver) k.gate (vec_len k.buffer) k.stopped (D.seen k.disk) };
}

/// A buffer of so many bytes.
fn buffer_of(alloc: Global, n: usize) -> Result<Vec<u8>, AllocError>
    ensures { IfOk result (λ buffer. vec_len buffer ≡ n) }
{
    vec![in alloc; 0u8; n]
}

/// Whether the verdict is `Kept`.
fn is_kept(verdict: Verdict) -> bool
    ensures { result ≡ judged_kept verdict }
{
    matches!(verdict, Verdict::Kept(_))
}

impl<'f, F: Rows, D: Disk> Keeper<'f, F, D> {
    /// Opens the journal of a session, or begins one on a file of at most 13 bytes, with a receiver that has kept the journal's
    /// packets. The open groups may cost at most `limit`: packets times datagram length, summed. The field writes an element
    /// in two bytes, and has a point for each packet number. It first syncs, and takes its write buffer here. The disk is given
    /// back where it does not start; a text that is refused is left as it is.
    pub fn start<L: Ledger>(
        alloc: Global,
        f: &'f F,
        session: [u8; 8],
        disk: D,
        limit: u64,
        steps: &mut Steps<L>,
    ) -> Result<Keeper<'f, F, D>, (D, StartFault)>
        requires width { F.coding.width ≡ 2 }
        requires points { MAX_PACKETS ≤ F.COUNT }
        ensures starts { IfOk result (λ keeper. Starts session limit (D.seen disk) (D.seen keeper.disk)
            (kept_set keeper.receiver)) }
        ensures going { IfOk result (λ keeper. keeper.stopped ≡ false) }
        ensures steps { IfOk result (λ keeper. CountsFrames session limit (kept_set keeper.receiver)
            steps.old steps.new) }
        ensures images { IfErr result (λ e. Between (ReadsAsBefore session limit) (D.seen disk)
            (D.seen e.0)) }
        ensures unchanged { IfErr result (λ e. KeepsDisk (D.seen disk) (D.seen e.0) e.1) }
        ensures refused { IfErr result (λ e. IfTold (D.seen disk)
            (λ d. IsStartFault keep_frame (empty_set session limit) session d.bytes e.1)) }
        ensures cause { IfErr result (λ e. Causes (D.faults disk) (D.faults e.0) e.1) }
        ensures later { IfErr result (λ e. D.faults disk ≤ D.faults e.0) }
        ensures later_ok { IfOk result (λ keeper. D.faults disk ≤ D.faults keeper.disk) }
    {
        let mut buffer = match buffer_of(alloc, ROOM) {
            Ok(buffer) => buffer,
            Err(_) => return Err((disk, StartFault::NoMemory)),
        };
        let mut disk = disk;
        let mut kept = KeptFrames {
            receiver: Receiver::new(alloc, f, session, limit),
        };
        match open(&mut disk, &mut kept, &mut buffer, &session, steps) {
            Ok(gate) => Ok(Keeper {
                receiver: kept.receiver,
                disk,
                buffer,
                gate,
                stopped: false,
            }),
            Err(fault) => Err((disk, fault)),
        }
    }

    /// Judges a datagram. Where the verdict is `Kept`, the packet stands in the journal before this is answered: length, frame and a
    /// closed gate are written behind the present gate and synced, then that gate is opened and synced. Every other verdict
    /// changes nothing. A kept packet counts the steps that it counts with a receiver.
    pub fn accept<L: Ledger>(
        &mut self,
        datagram: &[u8],
        steps: &mut Steps<L>,
    ) -> Result<Verdict, KeepFault>
        ensures verdict { IfOk result (λ v. v ≡ verdict_of (kept_set self.old.receiver) datagram.now) }
        ensures kept { OnOk result (kept_set self.new.receiver ≡ after (kept_set self.old.receiver) datagram.now) }
        ensures unchanged { IfOk result (λ v. judged_kept v ≡ false → (self.new ≡ self.old)
            × (steps.new ≡ steps.old)) }
        ensures cost { IfOk result (λ v. judged_kept v ≡ true
            → steps.new ≤ steps.old + frame_cost (kept_set self.old.receiver) datagram.now) }
        ensures since { self.old.stopped ≡ false → Between (EachSince (StandsWith
            (kept_set self.old.receiver) datagram.now)) (D.seen self.old.disk) (D.seen self.new.disk) }
        ensures images { Between (LeavesOnly (StandsWith (kept_set self.old.receiver) datagram.now))
            (D.seen self.old.disk) (D.seen self.new.disk) }
        ensures stands { OnOk result (IfTold (D.seen self.new.disk)
            (EachNow (StandsFor (kept_set self.new.receiver)))) }
        ensures going { OnOk result ((self.old.stopped ≡ false) × (self.new.stopped ≡ false)) }
        ensures stopped { IfErr result (λ f. f ≡ Stopped → (self.old.stopped ≡ true)
            × (self.new ≡ self.old) × (steps.new ≡ steps.old)) }
        ensures stops { self.old.stopped ≡ true → result ≡ Err Stopped }
        ensures memory { IfErr result (λ f. f ≡ NoMemory → (self.new ≡ self.old) × (steps.new ≡ steps.old)
            × (opens (kept_set self.old.receiver) (fields_of datagram.now) ≡ true)) }
        ensures cause { IfErr result (λ f. f ≡ DiskFault → Rose (D.faults self.old.disk) (D.faults self.new.disk)
            × (self.new.stopped ≡ true)
            × (judged_kept (verdict_of (kept_set self.old.receiver) datagram.now) ≡ true)
            × (kept_set self.new.receiver ≡ after (kept_set self.old.receiver) datagram.now)) }
        ensures later { D.faults self.old.disk ≤ D.faults self.new.disk }
        ensures sound { IsKeptSet (kept_set self.new.receiver) }
    {
        if self.stopped {
            return Err(KeepFault::Stopped);
        }
        let verdict = self.receiver.accept(datagram, steps)?;
        if !is_kept(verdict) {
            return Ok(verdict);
        }
        match append(&mut self.disk, self.gate, &mut self.buffer, datagram) {
            Ok(()) => {
                self.gate += 3 + datagram.len() as u64;
                Ok(verdict)
            }
            Err(_) => {
                self.stopped = true;
                Err(KeepFault::DiskFault)
            }
        }
    }

    /// The receiver. It takes no memory.
    pub fn receiver(&self) -> &Receiver<'f, F>
        ensures { result.now ≡ self.now.receiver }
    {
        &self.receiver
    }

    /// Gives the disk back. It takes no memory.
    pub fn stop(self) -> D
        ensures { result ≡ self.entry.disk }
    {
        self.disk
    }
}
