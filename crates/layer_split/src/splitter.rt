//! Groups out of pieces that come one by one.
ghost use Rattle.std.specs.Prelude.{◌≡◌, ◌≢◌, ◌+◌, ◌≤◌, ◌↔◌, ◌++◌, ◌∷◌, ◌||◌, ◌&&◌, ◌==◌, List, [], ℕ, length, IfOk, IfErr, OnOk, IsTrue, is_some, Some, None, true, false};
ghost use Rattle.pet_base.specs.declared.kind.Kind.{Kind};
ghost use Rattle.mpeg_scan.specs.declared.piece.Piece.{Piece};
ghost use Rattle.priority_file.specs.Priority.{layer_of, Priorities};
ghost use Rattle.layer_split.specs.declared.fault.SplitFault.{SplitFault};
ghost use Rattle.layer_split.specs.Groups.{groups_of, last_group};
ghost use Rattle.layer_split.specs.Groups as groups;
ghost use Rattle.layer_split.specs.Layers.{Cut, cut_of};
ghost use Rattle.layer_split.specs.Faults.{fault_of, is_too_long};
ghost use Rattle.layer_split.specs.Splitting.{HasAdded, HasRefused, IsOneTooMany, Holds, KeepsRest, AreOf, TakesOn, MeetsFault, MeetsLast, cuts_in, cuts_of};

use crate::cut::{GroupCut, Run};
use crate::fault::SplitFault;
use crate::kind_layers::KindLayers;
use crate::lengths::{EMPTY_RUN_TABLE, RUN_ENTRY, lengths_of};
use crate::places::Places;
use crate::runs::add_run;
use mpeg_scan::Piece;
use pet_base::{MAX_GROUP_BYTES, MAX_GROUPS, NoMemory};
use priority_file::Priority;
use std::alloc::Global;
use std::mem;

/// Cuts pieces that come one by one into groups and their runs. It holds one group.
#[derive(Drop)]
pub struct Splitter {
    alloc: Global,
    layers: KindLayers,
    /// The runs of the current group; none are added once it is too long.
    runs: Vec<Run>,
    /// The bytes of its run table and pieces, which stay where they are once it is too long.
    size: u64,
    /// Its P and B pictures so far.
    places: Places,
    has_picture: bool,
    /// The number of the current group.
    group: u32,
    refused: Option<SplitFault>,
}

impl Splitter {
    /// A splitter for this priority, to which no piece was added. It takes no memory.
    pub fn new(alloc: Global, priority: &Priority) -> Result<Splitter, NoMemory>
        ensures { IfOk result (λ splitter. HasAdded splitter priority.now [] []) }
    {
        Ok(Splitter {
            alloc,
            layers: KindLayers::new(priority),
            runs: Vec::new(alloc),
            size: EMPTY_RUN_TABLE,
            places: Places::new(),
            has_picture: false,
            group: 0,
            refused: None,
        })
    }

    /// Adds the next piece, and answers the cut of the group before it, exactly where it begins another group.
    ///
    /// It refuses where the group before it is too long, or where it would begin one group too many, and then again at
    /// every call.
    pub fn add(&mut self, piece: &Piece) -> Result<Option<GroupCut>, SplitFault>
        // The cuts that were answered are those of the groups that have ended.
        ensures ok { IfOk result (λ cut. (priority : Priorities) (pieces : List Piece) (cuts : List Cut) → HasAdded self.old priority pieces cuts
            → HasAdded self.new priority (pieces ++ piece.now ∷ []) (cuts ++ cuts_in cut)) }
        ensures begins { IfOk result (λ cut. (priority : Priorities) (pieces : List Piece) (cuts : List Cut) → HasAdded self.old priority pieces cuts
            → is_some cut ≡ groups.begins_group (last_group pieces) piece.now) }
        // Unless memory ran out, that is the fault of the pieces, whatever comes later.
        ensures refusal { IfErr result (λ fault. fault ≢ SplitFault.NoMemory → (priority : Priorities) (pieces : List Piece) (cuts : List Cut)
            → HasAdded self.old priority pieces cuts → (later : List Piece)
            → fault_of (layer_of priority) (length priority.layers) (groups_of (pieces ++ piece.now ∷ later)) ≡ Some fault) }
        // The piece would begin another group, behind one that is too long or the last that may be.
        ensures last { IfErr result (λ fault. fault ≢ SplitFault.NoMemory → (priority : Priorities) (pieces : List Piece) (cuts : List Cut)
            → HasAdded self.old priority pieces cuts → IsOneTooMany priority pieces piece.now) }
        ensures refused { IfErr result (λ fault. HasRefused self.new fault) }
        ensures again { (fault : SplitFault) → HasRefused self.old fault → (result ≡ Err fault)
            × HasRefused self.new fault }
    {
        if let Some(fault) = self.refused {
            return Err(fault);
        }
        match self.next(piece) {
            Ok(cut) => Ok(cut),
            Err(fault) => {
                self.refused = Some(fault);
                Err(fault)
            }
        }
    }

    /// Answers the cut of the last group, and `None` exactly where no piece was added. It is called once and last.
    ///
    /// It refuses where the last group is too long.
    pub fn finish(&mut self) -> Result<Option<GroupCut>, SplitFault>
        // The cuts that were answered are those of all groups.
        ensures ok { IfOk result (λ cut. (priority : Priorities) (pieces : List Piece) (cuts : List Cut) → HasAdded self.old priority pieces cuts
            → (cuts ++ cuts_in cut ≡ cuts_of priority (groups_of pieces)) × (fault_of (layer_of priority) (length priority.layers) (groups_of pieces) ≡ None)) }
        ensures none { IfOk result (λ cut. (priority : Priorities) (pieces : List Piece) (cuts : List Cut) → HasAdded self.old priority pieces cuts
            → ((cut ≡ None) ↔ (pieces ≡ []))) }
        ensures refusal { IfErr result (λ fault. (priority : Priorities) (pieces : List Piece) (cuts : List Cut) → HasAdded self.old priority pieces cuts
            → fault_of (layer_of priority) (length priority.layers) (groups_of pieces) ≡ Some fault) }
        ensures refused { IfErr result (λ fault. HasRefused self.new fault) }
        ensures again { (fault : SplitFault) → HasRefused self.old fault → (result ≡ Err fault)
            × HasRefused self.new fault }
    {
        if let Some(fault) = self.refused {
            return Err(fault);
        }
        if self.is_empty() {
            return Ok(None);
        }
        match self.end_group() {
            Ok(cut) => Ok(Some(cut)),
            Err(fault) => {
                self.refused = Some(fault);
                Err(fault)
            }
        }
    }

    /// Whether the current group has no piece.
    fn is_empty(&self) -> bool
        ensures { (lo : Kind → ℕ → ℕ) (group : List Piece) → Holds self.now lo group
            → (IsTrue result ↔ (group ≡ [])) }
    {
        self.size <= MAX_GROUP_BYTES as u64 && self.runs.is_empty()
    }

    /// Adds the next piece to the current group, or ends that and begins another with it.
    fn next(&mut self, piece: &Piece) -> Result<Option<GroupCut>, SplitFault>
        ensures ok { IfOk result (λ cut. TakesOn self.old self.new piece.now cut) }
        ensures begins { IfOk result (λ cut. (priority : Priorities) (pieces : List Piece) (cuts : List Cut) → HasAdded self.old priority pieces cuts
            → is_some cut ≡ groups.begins_group (last_group pieces) piece.now) }
        ensures refusal { IfErr result (λ fault. MeetsFault self.old piece.now fault) }
        ensures last { IfErr result (λ fault. MeetsLast self.old piece.now fault) }
    {
        if begins_group(self.has_picture, piece.code) {
            let cut = self.end_group()?;
            if self.group >= MAX_GROUPS - 1 {
                return Err(SplitFault::TooManyGroups);
            }
            self.group += 1;
            self.has_picture = false;
            self.take(piece)?;
            return Ok(Some(cut));
        }
        self.take(piece)?;
        self.has_picture = has_picture_with(self.has_picture, piece.code);
        Ok(None)
    }

    /// Ends the current group, and answers its cut.
    fn end_group(&mut self) -> Result<GroupCut, SplitFault>
        ensures cut { IfOk result (λ cut. (priority : Priorities) (group : List Piece) → AreOf self.old.layers priority → Holds self.old (layer_of priority) group
            → (cut ≡ cut_of (layer_of priority) (length priority.layers) group) × (is_too_long (layer_of priority) (length priority.layers) group ≡ false)) }
        ensures held { IfOk result (λ _. (lo : Kind → ℕ → ℕ) → Holds self.new lo []) }
        ensures long { IfErr result (λ fault. (fault ≡ SplitFault.GroupTooLong self.old.group) × ((priority : Priorities) (group : List Piece) → AreOf self.old.layers priority
            → Holds self.old (layer_of priority) group → is_too_long (layer_of priority) (length priority.layers) group ≡ true)) }
        ensures rest { KeepsRest self.old self.new }
    {
        if self.size > MAX_GROUP_BYTES as u64 {
            return Err(SplitFault::GroupTooLong(self.group));
        }
        let lengths = lengths_of(self.runs.as_slice(), self.layers.count);
        let runs = mem::replace(&mut self.runs, Vec::new(self.alloc));
        self.size = EMPTY_RUN_TABLE;
        self.places = Places::new();
        Ok(GroupCut { runs, lengths })
    }

    /// Takes a piece into the current group.
    fn take(&mut self, piece: &Piece) -> Result<(), SplitFault>
        ensures held { OnOk result ((priority : Priorities) (group : List Piece) → AreOf self.old.layers priority → Holds self.old (layer_of priority) group
            → Holds self.new (layer_of priority) (group ++ piece.now ∷ [])) }
        ensures fault { IfErr result (λ fault. fault ≡ SplitFault.NoMemory) }
        ensures rest { KeepsRest self.old self.new }
    {
        if self.size > MAX_GROUP_BYTES as u64 {
            return Ok(());
        }
        if piece.len > MAX_GROUP_BYTES as u64 {
            self.size = MAX_GROUP_BYTES as u64 + 1;
            return Ok(());
        }
        let place = self.places.take(piece);
        let run = Run {
            layer: self.layers.layer_of(piece.kind, place),
            at: piece.at,
            len: piece.len as u32,
        };
        match add_run(&mut self.runs, run) {
            Ok(begun) => {
                self.size += run.len as u64;
                if begun {
                    self.size += RUN_ENTRY;
                }
                Ok(())
            }
            Err(NoMemory) => Err(SplitFault::NoMemory),
        }
    }
}

/// Whether a piece of this code begins another group, where the current one has a picture or not.
fn begins_group(had_picture: bool, code: u8) -> bool
    ensures { result ≡ ((code == 0xB3 || code == 0xB8) && had_picture) }
{
    (code == 0xB3 || code == 0xB8) && had_picture
}

/// Whether the current group has a picture then.
fn has_picture_with(had_picture: bool, code: u8) -> bool
    ensures { result ≡ (had_picture || code == 0) }
{
    had_picture || code == 0
}
