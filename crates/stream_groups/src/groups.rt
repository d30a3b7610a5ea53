//! The groups of a stream with their bytes, one by one.
ghost use Rattle.std.specs.Prelude.{◌≡◌, ◌≢◌, ◌-◌, ◌<◌, ◌≤◌, ◌++◌, ◌∷◌, ℕ, List, [], All, map, take, drop, OnOk, OnErr, IfOk, IfErr, IfNone, IsSome, Ok, Some, None};
ghost use Rattle.mpeg_scan.specs.declared.piece.Piece.{Piece};
ghost use Rattle.mpeg_scan.specs.Pieces.{pieces_of};
ghost use Rattle.mpeg_scan.specs.declared.refusal.Scan.{Scan};
ghost use Rattle.mpeg_scan.specs.Refusals.{IsAccepted};
ghost use Rattle.mpeg_scan.specs.Scanning.{HasRead};
ghost use Rattle.priority_file.specs.Priority.{Priorities};
ghost use Rattle.layer_split.specs.declared.fault.SplitFault.{SplitFault};
ghost use Rattle.layer_split.specs.Splitting.{rebased};
ghost use Rattle.stream_groups.specs.CutGroups.{CutGroup};
ghost use Rattle.stream_groups.specs.declared.fault.CutFault.{CutFault};
ghost use Rattle.stream_groups.specs.Cutting.{HasCut, HasEnded, AreAll, IsCutFault, NoneFurther, LooksOn, MeetsFault, MeetsLimit, KeepsHeld, KeepsPieces, KeepsPending, ScansOn, Ends, cut_groups, groups_fault, group_from, groups_in, pieces_left};

use crate::fault::CutFault;
use layer_split::{GroupCut, SplitFault, Splitter};
use mpeg_scan::{Piece, Scan, Scanner};
use pet_base::NoMemory;
use priority_file::Priority;
use std::alloc::Global;
use std::marker::Model;
use std::mem;

/// A group of a stream: its bytes, and its cut, whose runs are counted from its first byte.
#[derive(Drop)]
pub struct Group {
    pub cut: GroupCut,
    pub bytes: Vec<u8>,
}

impl Model for Group {
    ghost use Rattle.stream_groups.specs.CutGroups.{CutGroup};

    ghost Value = { CutGroup };

    ghost view = { λ g. record { cut = g.cut; bytes = g.bytes.items } };
}

/// Gives the groups of a stream that comes in portions, one by one, each once it has ended.
///
/// It holds the bytes of the group that has not ended, and the last portion, and none once its groups are refused. `new`,
/// `feed` and `next` fail only for want of memory, and nothing is said of the cutter after that; `finish` answers a refusal
/// too.
#[derive(Drop)]
pub struct GroupCutter {
    alloc: Global,
    scanner: Scanner,
    splitter: Splitter,
    /// The pieces of the last portion, and how many of them were looked at.
    pieces: Vec<Piece>,
    looked: usize,
    /// The bytes of the stream from the first byte of the current group on.
    held: Vec<u8>,
    /// Where in the stream they begin.
    from: u64,
    /// Why the stream is refused. No more of it is read then.
    scan: Option<Scan>,
    /// Why its groups are refused. Nothing is held then, and the stream is only scanned.
    fault: Option<SplitFault>,
}

impl GroupCutter {
    /// A cutter for this priority that has read nothing.
    pub fn new(alloc: Global, priority: &Priority) -> Result<GroupCutter, NoMemory>
        ensures cut { IfOk result (λ cutter. HasCut cutter priority.now [] []) }
        ensures none_left { IfOk result (λ cutter. pieces_left cutter ≡ 0) }
    {
        Ok(GroupCutter {
            alloc,
            scanner: Scanner::new(),
            splitter: Splitter::new(alloc, priority)?,
            pieces: Vec::new(alloc),
            looked: 0,
            held: Vec::new(alloc),
            from: 0,
            scan: None,
            fault: None,
        })
    }

    /// Reads the next portion of the stream. A refusal of the stream is kept until the end; no more is read then. Where the
    /// groups are refused, the stream is only scanned.
    pub fn feed(&mut self, portion: &[u8]) -> Result<(), NoMemory>
        ensures { OnOk result ((priority : Priorities) (stream : List ℕ) (given : List CutGroup) → HasCut self.old priority stream given
            → HasCut self.new priority (stream ++ portion.now) given) }
    {
        if self.scan.is_some() {
            return Ok(());
        }
        if self.fault.is_some() {
            self.scan_on(portion)?;
            self.pieces.clear();
            return Ok(());
        }
        self.forget_looked();
        self.held.extend_from_slice(portion)?;
        self.scan_on(portion)
    }

    /// The next group that has ended, and `None` where none has.
    ///
    /// With each, fewer pieces are left to be looked at, so that a loop that takes groups until `None` ends; none is left
    /// then.
    pub fn next(&mut self) -> Result<Option<Group>, NoMemory>
        ensures cut { IfOk result (λ group. (priority : Priorities) (stream : List ℕ) (given : List CutGroup) → HasCut self.old priority stream given
            → HasCut self.new priority stream (given ++ groups_in group)) }
        ensures fewer { IfOk result (λ group. IsSome group
            → pieces_left self.new < pieces_left self.old) }
        ensures done { IfOk result (λ group. IfNone group (pieces_left self.new ≡ 0)) }
    {
        match self.look_on() {
            Ok(group) => Ok(group),
            Err(fault) => {
                pass_on_fault(fault)?;
                self.stop(fault);
                Ok(None)
            }
        }
    }

    /// Ends the stream: the groups that were not given yet, the last of the stream among them. It is called once and last.
    ///
    /// Where `next` gave all it could, they are two at most: the stream's last piece can end a group and be the next.
    ///
    /// # Errors
    ///
    /// The refusal of the stream, or else that of its groups.
    pub fn finish(&mut self) -> Result<Vec<Group>, CutFault>
        ensures whole { IfOk result (λ left. (priority : Priorities) (stream : List ℕ) (given : List CutGroup)
            → HasCut self.old priority stream given → AreAll priority stream (given ++ left.items)) }
        ensures refused { IfErr result (λ fault. (priority : Priorities) (stream : List ℕ) (given : List CutGroup)
            → HasCut self.old priority stream given → IsCutFault priority stream fault) }
        // Where all that was read was looked at, every group that had ended before the refusal was given.
        ensures further { OnErr result ((priority : Priorities) (stream : List ℕ) (given : List CutGroup) → HasCut self.old priority stream given
            → pieces_left self.old ≡ 0 → NoneFurther priority stream given) }
    {
        if let Some(scan) = self.scan {
            return Err(CutFault::Stream(scan));
        }
        match self.scanner.finish(&mut self.pieces) {
            Ok(()) => match self.fault {
                Some(fault) => Err(CutFault::Groups(fault)),
                None => self.last_groups(),
            },
            Err(scan) => match scan {
                Scan::NoMemory => Err(CutFault::NoMemory),
                _ => Err(CutFault::Stream(scan)),
            },
        }
    }

    /// Hands the portion to the scanner, and keeps its refusal.
    fn scan_on(&mut self, portion: &[u8]) -> Result<(), NoMemory>
        ensures scans { OnOk result (self.old.scan ≡ None → (stream : List ℕ) (pieces : List Piece) → HasRead self.old.scanner stream pieces
            → ScansOn self.old.pieces.items self.new stream portion.now pieces) }
        ensures rest { KeepsHeld self.old self.new }
    {
        match self.scanner.feed(portion, &mut self.pieces) {
            Ok(()) => Ok(()),
            Err(scan) => match scan {
                Scan::NoMemory => Err(NoMemory),
                _ => {
                    self.scan = Some(scan);
                    Ok(())
                }
            },
        }
    }

    /// Lets go of the pieces, once all were looked at.
    fn forget_looked(&mut self)
        ensures { KeepsPending self.old self.new }
    {
        if self.looked == self.pieces.len() {
            self.pieces.clear();
            self.looked = 0;
        }
    }

    /// Keeps why the groups are refused, and holds nothing of the stream.
    fn stop(&mut self, fault: SplitFault)
        ensures kept { self.new.fault ≡ Some fault }
        ensures none_left { pieces_left self.new ≡ 0 }
        ensures rest { (self.new.scanner ≡ self.old.scanner) × (self.new.scan ≡ self.old.scan) }
    {
        self.pieces.clear();
        self.looked = 0;
        self.held.clear();
        self.fault = Some(fault);
    }

    /// Looks at pieces until a group has ended, or none is left.
    fn look_on(&mut self) -> Result<Option<Group>, SplitFault>
        ensures looked { IfOk result (λ group. LooksOn self.old self.new group) }
        ensures fault { IfErr result (λ fault. MeetsFault self.old fault) }
        ensures limit { IfErr result (λ fault. MeetsLimit self.old fault) }
        ensures fewer { IfOk result (λ group. IsSome group
            → pieces_left self.new < pieces_left self.old) }
        ensures done { IfOk result (λ group. IfNone group (pieces_left self.new ≡ 0)) }
        ensures idle { pieces_left self.old ≡ 0 → (result ≡ Ok None) × (self.new ≡ self.old) }
        ensures rest { (self.new.scanner ≡ self.old.scanner) × (self.new.scan ≡ self.old.scan)
            × (self.new.fault ≡ self.old.fault) }
    {
        while self.looked < self.pieces.len() {
            if let Some(group) = self.look()? {
                return Ok(Some(group));
            }
        }
        Ok(None)
    }

    /// Looks at the next piece.
    fn look(&mut self) -> Result<Option<Group>, SplitFault>
        requires { 0 < pieces_left self.old }
        ensures looked { IfOk result (λ group. LooksOn self.old self.new group) }
        ensures fault { IfErr result (λ fault. MeetsFault self.old fault) }
        ensures limit { IfErr result (λ fault. MeetsLimit self.old fault) }
        ensures fewer { OnOk result (pieces_left self.new < pieces_left self.old) }
        ensures rest { (self.new.scanner ≡ self.old.scanner) × (self.new.scan ≡ self.old.scan)
            × (self.new.fault ≡ self.old.fault) }
    {
        let piece = self.pieces[self.looked];
        self.looked += 1;
        let cut = self.splitter.add(&piece)?;
        self.end_group(cut, piece.at)
    }

    /// Ends the stream's groups: those that are left.
    fn last_groups(&mut self) -> Result<Vec<Group>, CutFault>
        ensures whole { IfOk result (λ left. (priority : Priorities) (stream : List ℕ) (given : List CutGroup) → HasEnded self.old priority stream given
            → (given ++ left.items ≡ cut_groups priority stream) × (groups_fault priority stream ≡ None)) }
        ensures refused { IfErr result (λ fault. (priority : Priorities) (stream : List ℕ) (given : List CutGroup) → HasEnded self.old priority stream given
            → IsAccepted stream → IsCutFault priority stream fault) }
    {
        let mut groups = Vec::new(self.alloc);
        match self.end_groups(&mut groups) {
            Ok(()) => Ok(groups),
            Err(fault) => match fault {
                SplitFault::NoMemory => Err(CutFault::NoMemory),
                _ => Err(CutFault::Groups(fault)),
            },
        }
    }

    /// Appends the groups that are left.
    fn end_groups(&mut self, groups: &mut Vec<Group>) -> Result<(), SplitFault>
        ensures whole { OnOk result ((priority : Priorities) (stream : List ℕ) (given : List CutGroup)
            → HasEnded self.old priority stream (given ++ groups.old.items) → (given ++ groups.new.items ≡ cut_groups priority stream)
            × (groups_fault priority stream ≡ None)) }
        ensures fault { IfErr result (λ fault. fault ≢ SplitFault.NoMemory → (priority : Priorities) (stream : List ℕ) (given : List CutGroup)
            → HasEnded self.old priority stream (given ++ groups.old.items)
            → groups_fault priority stream ≡ Some fault) }
    {
        while self.looked < self.pieces.len() {
            let group = self.look()?;
            keep(groups, group)?;
        }
        let last = self.last_group()?;
        keep(groups, last)
    }

    /// The last group, where all pieces of the stream were looked at.
    fn last_group(&mut self) -> Result<Option<Group>, SplitFault>
        ensures whole { IfOk result (λ group. (priority : Priorities) (stream : List ℕ) (given : List CutGroup)
            → HasEnded self.old priority stream given → pieces_left self.old ≡ 0 → (given ++ groups_in group ≡ cut_groups priority stream)
            × (groups_fault priority stream ≡ None)) }
        ensures fault { IfErr result (λ fault. fault ≢ SplitFault.NoMemory → (priority : Priorities) (stream : List ℕ) (given : List CutGroup)
            → HasEnded self.old priority stream given → pieces_left self.old ≡ 0
            → groups_fault priority stream ≡ Some fault) }
    {
        let cut = self.splitter.finish()?;
        let end = self.from.saturating_add(self.held.len() as u64);
        self.end_group(cut, end)
    }

    /// The group of this cut, where there is one: it ends before this byte of the stream.
    fn end_group(&mut self, cut: Option<GroupCut>, end: u64) -> Result<Option<Group>, SplitFault>
        ensures ends { IfOk result (λ group. Ends self.old self.new cut end group) }
        ensures fault { IfErr result (λ fault. fault ≡ SplitFault.NoMemory) }
        ensures rest { KeepsPieces self.old self.new }
    {
        match cut {
            Some(cut) => match self.take_group(cut, end) {
                Ok(group) => Ok(Some(group)),
                Err(NoMemory) => Err(SplitFault::NoMemory),
            },
            None => Ok(None),
        }
    }

    /// Takes the bytes before this byte of the stream out of what is held: they are those of the group of this cut.
    fn take_group(&mut self, mut cut: GroupCut, end: u64) -> Result<Group, NoMemory>
        ensures group { IfOk result (λ group. All (λ run. self.old.from ≤ run.at) cut.runs
            → group ≡ group_from self.old.from cut (take (end - self.old.from) self.old.held.items)) }
        ensures held { OnOk result ((self.new.held.items
            ≡ drop (end - self.old.from) self.old.held.items) × (self.new.from ≡ end)) }
        ensures rest { KeepsPieces self.old self.new }
    {
        let len = (end.saturating_sub(self.from) as usize).min(self.held.len());
        let rest = Vec::from_slice(self.alloc, &self.held[len..])?;
        self.held.truncate(len);
        let bytes = mem::replace(&mut self.held, rest);
        rebase(&mut cut, self.from);
        self.from = end;
        Ok(Group { cut, bytes })
    }
}

/// Counts the places of the runs from this byte of the stream on, before which none begins.
fn rebase(cut: &mut GroupCut, from: u64)
    ensures { All (λ run. from ≤ run.at) cut.old.runs → cut.new ≡ record { runs = map (rebased from) cut.old.runs; lengths = cut.old.lengths } }
{
    if cut.runs.iter().all(|run| from <= run.at) {
        cut.rebase(from);
    }
}

/// Passes want of memory on: any other answer is a fault of the groups.
fn pass_on_fault(fault: SplitFault) -> Result<(), NoMemory>
    ensures { OnOk result (fault ≢ SplitFault.NoMemory) }
{
    match fault {
        SplitFault::NoMemory => Err(NoMemory),
        _ => Ok(()),
    }
}

/// Keeps a group, where there is one.
fn keep(groups: &mut Vec<Group>, group: Option<Group>) -> Result<(), SplitFault>
    ensures ok { OnOk result (groups.new.items ≡ groups.old.items ++ groups_in group) }
    ensures fault { IfErr result (λ fault. fault ≡ SplitFault.NoMemory) }
{
    match group {
        Some(group) => {
            if groups.push(group).is_err() {
                return Err(SplitFault::NoMemory);
            }
            Ok(())
        }
        None => Ok(()),
    }
}
