//! The tables of a stream's groups, made piece by piece.
ghost use Rattle.std.specs.Prelude.{◌≡◌, ◌≢◌, ◌<◌, ◌≤◌, ◌++◌, ◌∷◌, List, [], All, length, Option, Some, None, IfOk, IfErr, OnOk};
ghost use Rattle.pet_base.specs.declared.limits.TheConstants.{MAX_GROUPS, MAX_SESSION};
ghost use Rattle.mpeg_scan.specs.declared.piece.Piece.{Piece};
ghost use Rattle.priority_file.specs.Priority.{Priorities};
ghost use Rattle.layer_split.specs.Groups.{groups_of};
ghost use Rattle.layer_split.specs.Layers.{Cut};
ghost use Rattle.layer_split.specs.Splitting.{cuts_of, cuts_in};
ghost use Rattle.stream_session.specs.declared.fault.SessionFault.{SessionFault};
ghost use Rattle.stream_session.specs.Tables.{tables_of_in, IsFit, IsSessionFormat};
ghost use Rattle.stream_session.specs.Refusals.{session_fault_in, fault_after, fault_of_cuts_in};
ghost use Rattle.stream_session.specs.Planning.{HasPlanned, HasTables};
ghost use Rattle.stream_session.specs.inside.Planning.{HasRefused, KeepsRest};

use crate::fault::SessionFault;
use crate::group_tables::GroupTables;
use layer_split::{GroupCut, SplitFault, Splitter};
use mpeg_scan::Piece;
use packet_frame::Format;
use pet_base::{MAX_SESSION, NoMemory};
use priority_file::Priority;
use std::alloc::Global;
use stripe_plan::Table;

/// Makes the tables of a stream's groups, piece by piece, and keeps a refusal back until the end. It holds no bytes of
/// the stream.
#[derive(Drop)]
pub(crate) struct Planner {
    splitter: Splitter,
    /// Those of the groups that have ended.
    tables: GroupTables,
    /// Why the splitter has refused.
    refused: Option<SessionFault>,
}

impl Planner {
    /// A planner for this priority, to which no piece was added.
    pub(crate) fn new(alloc: Global, priority: &Priority) -> Result<Planner, NoMemory>
        ensures { IfOk result (λ planner. HasPlanned planner priority.now []) }
    {
        let splitter = Splitter::new(alloc, priority)?;
        Ok(Planner {
            splitter,
            tables: GroupTables::new(alloc, priority),
            refused: None,
        })
    }

    /// Adds the next piece. It fails only for want of memory: a refusal of the pieces is answered at the end.
    pub(crate) fn add(&mut self, piece: &Piece) -> Result<(), NoMemory>
        ensures { OnOk result ((priority : Priorities) (pieces : List Piece)
            → HasPlanned self.old priority pieces
            → HasPlanned self.new priority (pieces ++ piece.now ∷ [])) }
    {
        if self.refused.is_some() {
            return Ok(());
        }
        match self.splitter.add(piece) {
            Ok(cut) => self.keep(cut),
            Err(fault) => self.refuse(fault),
        }
    }

    /// The tables of all groups in a format, in order, or the first cause that holds against them, where a session may have so many
    /// bytes, at most `MAX_SESSION`.
    pub(crate) fn finish_in(
        mut self,
        format: &Format,
        limit: u64,
    ) -> Result<Vec<Table>, SessionFault>
        requires format { IsSessionFormat format.now }
        requires limit { limit ≤ MAX_SESSION }
        ensures tables { IfOk result (λ tables. (priority : Priorities) (pieces : List Piece) → HasPlanned self priority pieces
            → (session_fault_in format.now limit priority pieces ≡ None)
            × (tables.items ≡ tables_of_in format.now priority (cuts_of priority (groups_of pieces)))) }
        ensures refused { IfErr result (λ fault. fault ≢ SessionFault.NoMemory → (priority : Priorities) (pieces : List Piece) → HasPlanned self priority pieces
            → session_fault_in format.now limit priority pieces ≡ Some fault) }
    {
        self.tables.allowed(format)?;
        if let Some(fault) = self.refused {
            return Err(fault);
        }
        match self.splitter.finish() {
            Ok(cut) => self.end(cut, format, limit),
            Err(fault) => Err(refusal_of(fault)),
        }
    }

    /// The tables with that of the last group, or the first cause that holds against the groups.
    fn end(
        mut self,
        cut: Option<GroupCut>,
        format: &Format,
        limit: u64,
    ) -> Result<Vec<Table>, SessionFault>
        requires format { IsSessionFormat format.now }
        requires few { self.tables.needs.packets ≤ format.now.bounds.packets }
        requires limit { limit ≤ MAX_SESSION }
        ensures tables { IfOk result (λ tables. (priority : Priorities) (cuts : List Cut) → length cuts < MAX_GROUPS → All (IsFit priority) (cuts_in cut)
            → HasTables self.tables priority cuts
            → (fault_of_cuts_in format.now limit priority (cuts ++ cuts_in cut) ≡ None)
            × (tables.items ≡ tables_of_in format.now priority (cuts ++ cuts_in cut))) }
        ensures refused { IfErr result (λ fault. fault ≢ SessionFault.NoMemory → (priority : Priorities) (cuts : List Cut) → length cuts < MAX_GROUPS
            → All (IsFit priority) (cuts_in cut) → HasTables self.tables priority cuts
            → fault_of_cuts_in format.now limit priority (cuts ++ cuts_in cut) ≡ Some fault) }
    {
        match self.keep(cut) {
            Ok(()) => self.tables.judged(format, limit),
            Err(NoMemory) => Err(SessionFault::NoMemory),
        }
    }

    /// Keeps why the splitter has refused.
    fn refuse(&mut self, fault: SplitFault) -> Result<(), NoMemory>
        ensures refused { OnOk result (HasRefused self.new fault) }
        ensures needs { self.new.tables.needs ≡ self.old.tables.needs }
    {
        if fault == SplitFault::NoMemory {
            return Err(NoMemory);
        }
        self.refused = Some(refusal_of(fault));
        Ok(())
    }

    /// Keeps the table of the next group, where there is one.
    fn keep(&mut self, cut: Option<GroupCut>) -> Result<(), NoMemory>
        ensures kept { OnOk result ((priority : Priorities) (cuts : List Cut) → length cuts < MAX_GROUPS → All (IsFit priority) (cuts_in cut)
            → HasTables self.old.tables priority cuts → HasTables self.new.tables priority (cuts ++ cuts_in cut)) }
        ensures rest { KeepsRest self.old self.new }
        ensures needs { self.new.tables.needs ≡ self.old.tables.needs }
    {
        match cut {
            Some(cut) => self.tables.keep(&cut),
            None => Ok(()),
        }
    }
}

/// The same cause, as one against a session.
pub(crate) fn refusal_of(fault: SplitFault) -> SessionFault
    ensures { (later : Option SessionFault) → fault_after (Some fault) later ≡ Some result }
{
    match fault {
        SplitFault::GroupTooLong(group) => SessionFault::GroupTooLong(group),
        SplitFault::TooManyGroups => SessionFault::TooManyGroups,
        SplitFault::NoMemory => SessionFault::NoMemory,
    }
}
