//! A file in memory, which keeps all that a crash may leave of it.
ghost use Rattle.std.specs.Prelude.{◌≡◌, ◌≤◌, true, length, take, IfOk, OnOk, OnErr};
ghost use Rattle.outside_disk.specs.Disk.{IfTold, IsSynced, image, with_bytes};
ghost use Rattle.outside_disk.specs.Events.{content, replay, last_synced, are_asked};

use crate::calls::Calls;
use crate::disk::Disk;
use crate::event::Event;
use pet_base::Failed;
use std::alloc::{AllocError, Global};

/// A file in memory, which tells all. The calls of `Disk` are counted from 0. Those whose numbers it was made with or
/// `failing_from` was told fail, and else one fails only for want of memory.
#[derive(Drop)]
pub struct MemoryDisk {
    alloc: Global,
    /// What it read as at first.
    first: Vec<u8>,
    /// What it reads as, where it was written or cut.
    current: Option<Vec<u8>>,
    /// What it read as at the last sync, where there was one.
    synced: Option<Vec<u8>>,
    /// What was done to it.
    events: Vec<Event>,
    calls: Calls,
    ghost same: { content first current ≡ replay first.items events.items },
    ghost kept: { content first synced ≡ last_synced first.items first.items events.items },
    ghost asked: { are_asked first.items events.items ≡ true },
}

impl MemoryDisk {
    ghost use Rattle.outside_disk.specs.Calls.{Begins, FailsFrom};
    ghost use Rattle.outside_disk.specs.Memory.{memory_bytes, memory_synced, memory_calls, memory_seen, IsUntouched, KeepsFile, HasWritten, HasCut, HasSynced};

    /// A file of these bytes, all of them on the disk: nothing was done to it, and a crash leaves just them. The calls of these
    /// numbers are to fail.
    pub fn new(alloc: Global, bytes: Vec<u8>, failing: Vec<u64>) -> MemoryDisk
        ensures bytes { memory_bytes result ≡ bytes.items }
        ensures synced { memory_synced result ≡ bytes.items }
        ensures untouched { IsUntouched bytes.items result }
        ensures image { IfTold (memory_seen result) IsSynced }
        ensures calls { Begins (memory_calls result) failing.items }
    {
        MemoryDisk {
            alloc,
            first: bytes,
            current: None,
            synced: None,
            events: Vec::new(alloc),
            calls: Calls::new(failing),
        }
    }

    /// What it reads as.
    pub fn bytes(&self) -> &[u8]
        ensures { result.now ≡ memory_bytes self.now }
    {
        match &self.current {
            Some(bytes) => bytes,
            None => &self.first,
        }
    }

    /// What it read as after the last sync that succeeded, or at first. This is one of its images.
    pub fn synced(&self) -> &[u8]
        ensures bytes { result.now ≡ memory_synced self.now }
        ensures image { IfTold (memory_seen self.now) (λ d. image d (memory_synced self.now)) }
    {
        match &self.synced {
            Some(bytes) => bytes,
            None => &self.first,
        }
    }

    /// Every call of this number or above is to fail too, and nothing else changes.
    pub fn failing_from(&mut self, call: u64)
        ensures file { KeepsFile self.old self.new }
        ensures calls { FailsFrom (memory_calls self.old) (memory_calls self.new) call }
    {
        self.calls.failing_from(call);
    }

    /// Writes the bytes, and keeps that this was done.
    fn write(&mut self, at: usize, bytes: &[u8]) -> Result<(), AllocError>
        requires { at ≤ length (memory_bytes self.old) }
        ensures written { OnOk result (memory_bytes self.new
            ≡ with_bytes at bytes.now (memory_bytes self.old)) }
        ensures done { OnOk result (HasWritten at bytes.now self.old self.new) }
        ensures err { OnErr result (KeepsFile self.old self.new) }
        ensures calls { self.new.calls ≡ self.old.calls }
    {
        let next = replaced(self.alloc, self.bytes(), at, bytes)?;
        let part = Vec::from_slice(self.alloc, bytes)?;
        self.events.push(Event::Wrote(at, part))?;
        self.current = Some(next);
        Ok(())
    }

    /// Cuts the file, and keeps that this was done.
    fn shorten(&mut self, to: usize) -> Result<(), AllocError>
        requires { to ≤ length (memory_bytes self.old) }
        ensures cut { OnOk result (memory_bytes self.new ≡ take to (memory_bytes self.old)) }
        ensures done { OnOk result (HasCut to self.old self.new) }
        ensures err { OnErr result (KeepsFile self.old self.new) }
        ensures calls { self.new.calls ≡ self.old.calls }
    {
        let next = Vec::from_slice(self.alloc, &self.bytes()[..to])?;
        self.events.push(Event::Cut(to))?;
        self.current = Some(next);
        Ok(())
    }

    /// Keeps that the file is on the disk as it reads.
    fn settle(&mut self) -> Result<(), AllocError>
        ensures same { memory_bytes self.new ≡ memory_bytes self.old }
        ensures synced { OnOk result (memory_synced self.new ≡ memory_bytes self.old) }
        ensures done { OnOk result (HasSynced self.old self.new) }
        ensures err { OnErr result (KeepsFile self.old self.new) }
        ensures calls { self.new.calls ≡ self.old.calls }
    {
        let copy = Vec::from_slice(self.alloc, self.bytes())?;
        self.events.push(Event::Synced)?;
        self.synced = Some(copy);
        Ok(())
    }
}

/// The bytes, with others in their range.
fn replaced(alloc: Global, old: &[u8], at: usize, part: &[u8]) -> Result<Vec<u8>, AllocError>
    requires { at ≤ length old.now }
    ensures { IfOk result (λ v. v.items ≡ with_bytes at part.now old.now) }
{
    let mut next = Vec::from_slice(alloc, &old[..at])?;
    next.extend_from_slice(part)?;
    if part.len() < old.len() - at {
        next.extend_from_slice(&old[at + part.len()..])?;
    }
    Ok(next)
}

impl Disk for MemoryDisk {
    ghost use Rattle.std.specs.Prelude.{◌≤◌, ◌+◌, ◌≡◌, length, IfOk, OnOk, OnErr};
    ghost use Rattle.pet_base.specs.Causes.{HasCause};
    ghost use Rattle.outside_disk.specs.Calls.{FailsAsListed};
    ghost use Rattle.outside_disk.specs.Disk.{IfTold, Between, Holds, Written, IsCutTo, Torn, Cut, Leaves, LeavesNoMore, LeavesAny, LeavesTorn, LeavesCut, IsSynced};
    ghost use Rattle.outside_disk.specs.Memory.{memory_bytes, memory_seen, memory_faults, memory_calls, KeepsFile, HasWritten, HasCut, HasSynced};
    ghost use Rattle.outside_disk.specs.laws.MemoryLaws.{is_sound};

    ghost seen = { memory_seen };

    ghost faults = { memory_faults };

    ghost sound = { λ m. is_sound m.first.items (memory_bytes m) m.events.items m.asked m.same };

    fn length(&mut self) -> Result<u64, Failed>
        ensures number { IfOk result (λ n. IfTold (memory_seen self.old) (λ d. length d.bytes ≡ n)) }
        ensures same { Between Leaves (memory_seen self.old) (memory_seen self.new) }
        ensures file { KeepsFile self.old self.new }
        ensures cause { HasCause (memory_faults self.old) (memory_faults self.new) result }
        ensures calls { FailsAsListed (memory_calls self.old) (memory_calls self.new) result }
    {
        if self.calls.count() {
            return Err(self.calls.fault());
        }
        Ok(self.bytes().len() as u64)
    }

    fn read_at(&mut self, at: u64, into: &mut [u8]) -> Result<(), Failed>
        requires { IfTold (memory_seen self.old) (λ d. at + length into.old ≤ length d.bytes) }
        ensures filled { OnOk result (IfTold (memory_seen self.old) (λ d. Holds d.bytes at into.new)) }
        ensures same { Between Leaves (memory_seen self.old) (memory_seen self.new) }
        ensures file { KeepsFile self.old self.new }
        ensures cause { HasCause (memory_faults self.old) (memory_faults self.new) result }
        ensures calls { FailsAsListed (memory_calls self.old) (memory_calls self.new) result }
    {
        if self.calls.count() {
            return Err(self.calls.fault());
        }
        let at = at as usize;
        let end = at + into.len();
        into.copy_from_slice(&self.bytes()[at..end]);
        Ok(())
    }

    fn write_at(&mut self, at: u64, bytes: &[u8]) -> Result<(), Failed>
        requires { IfTold (memory_seen self.old) (λ d. at ≤ length d.bytes) }
        ensures written { OnOk result (Between (Written at bytes.now) (memory_seen self.old)
            (memory_seen self.new)) }
        ensures images { Between (LeavesTorn at (length bytes.now)) (memory_seen self.old)
            (memory_seen self.new) }
        ensures any { OnOk result (Between (LeavesAny (Torn at (length bytes.now))) (memory_seen self.old)
            (memory_seen self.new)) }
        ensures done { OnOk result (HasWritten at bytes.now self.old self.new) }
        ensures err { OnErr result (KeepsFile self.old self.new) }
        ensures cause { HasCause (memory_faults self.old) (memory_faults self.new) result }
        ensures calls { FailsAsListed (memory_calls self.old) (memory_calls self.new) result }
    {
        if self.calls.count() {
            return Err(self.calls.fault());
        }
        match self.write(at as usize, bytes) {
            Ok(()) => Ok(()),
            Err(growth) => Err(self.calls.unmet(growth)),
        }
    }

    fn cut(&mut self, to: u64) -> Result<(), Failed>
        requires { IfTold (memory_seen self.old) (λ d. to ≤ length d.bytes) }
        ensures cut { OnOk result (Between (IsCutTo to) (memory_seen self.old) (memory_seen self.new)) }
        ensures images { Between (LeavesCut to) (memory_seen self.old) (memory_seen self.new) }
        ensures any { OnOk result (Between (LeavesAny (Cut to)) (memory_seen self.old) (memory_seen self.new)) }
        ensures done { OnOk result (HasCut to self.old self.new) }
        ensures err { OnErr result (KeepsFile self.old self.new) }
        ensures cause { HasCause (memory_faults self.old) (memory_faults self.new) result }
        ensures calls { FailsAsListed (memory_calls self.old) (memory_calls self.new) result }
    {
        if self.calls.count() {
            return Err(self.calls.fault());
        }
        match self.shorten(to as usize) {
            Ok(()) => Ok(()),
            Err(growth) => Err(self.calls.unmet(growth)),
        }
    }

    fn sync(&mut self) -> Result<(), Failed>
        ensures synced { OnOk result (IfTold (memory_seen self.new) IsSynced) }
        ensures same { Between LeavesNoMore (memory_seen self.old) (memory_seen self.new) }
        ensures failed { OnErr result (Between Leaves (memory_seen self.old) (memory_seen self.new)) }
        ensures done { OnOk result (HasSynced self.old self.new) }
        ensures err { OnErr result (KeepsFile self.old self.new) }
        ensures cause { HasCause (memory_faults self.old) (memory_faults self.new) result }
        ensures calls { FailsAsListed (memory_calls self.old) (memory_calls self.new) result }
    {
        if self.calls.count() {
            return Err(self.calls.fault());
        }
        match self.settle() {
            Ok(()) => Ok(()),
            Err(growth) => Err(self.calls.unmet(growth)),
        }
    }
}
