//! The first pass over a stream whose groups are marked.
ghost use Rattle.std.specs.Prelude.{◌≡◌, ◌<◌, ◌≤◌, ◌++◌, ◌∷◌, ℕ, List, [], All, length, Option, Some, None, ◌≢◌, OnOk, IfOk, IfErr};
ghost use Rattle.pet_base.specs.declared.limits.TheConstants.{MAX_GROUPS, MAX_SESSION};
ghost use Rattle.sha2.specs.Hashers.{Holds256};
ghost use Rattle.priority_file.specs.Priority.{Priorities};
ghost use Rattle.stream_groups.specs.CutGroups.{CutGroup};
ghost use Rattle.stream_groups.specs.Cutting.{AreAll, IsCutFault};
ghost use Rattle.layer_split.specs.Layers.{Cut};
ghost use Rattle.stream_session.specs.declared.fault.SessionFault.{SessionFault};
ghost use Rattle.stream_session.specs.Planning.{AreOf, HasTables};
ghost use Rattle.stream_session.specs.Refusals.{fault_after, fault_of_cuts_in, many_fault};
ghost use Rattle.stream_session.specs.Tables.{tables_of_in, IsFit};
ghost use Rattle.stream_session.specs.Number.{hashed};
ghost use Rattle.stream_session.specs.Passing.{IsStreamFaultIn};
ghost use Rattle.stream_session.specs.Tables.{IsSessionFormat};
ghost use Rattle.packet_frame.specs.declared.format.Format.{Format};
ghost use Rattle.stream_session.specs.inside.Marking.{AreKept, HasKept, HasMarked, IsMarkedPlanOf};

use crate::fault::SessionFault;
use crate::group_tables::GroupTables;
use crate::mark::GroupMark;
use crate::pass::{SessionPlan, StreamFault, first_eight, hasher_of};
use crate::planner::refusal_of;
use crate::reader::StreamReader;
use layer_split::SplitFault;
use packet_frame::Format;
use pet_base::{MAX_SESSION, NoMemory};
use priority_file::Priority;
use sha2::{Digest, Sha256};
use std::alloc::Global;
use stream_groups::{CutFault, Group, GroupCutter};
use stripe_plan::Table;

/// The session of a stream, and the marks of its groups.
#[derive(Drop)]
pub struct MarkedPlan {
    pub plan: SessionPlan,
    /// One for each group, in order.
    pub marks: Vec<GroupMark>,
}

/// The tables and the marks of groups that come one by one.
#[derive(Drop)]
struct KeptGroups {
    tables: GroupTables,
    marks: Vec<GroupMark>,
}

/// A pass that scans the stream once: of each group it keeps the table and the mark as the group ends, and then lets it go.
/// It holds the bytes of the group that has not ended.
#[derive(Drop)]
pub struct MarkedPass {
    cutter: GroupCutter,
    kept: KeptGroups,
    hasher: Sha256,
}

impl StreamReader for MarkedPass {
    type Answer = MarkedPlan;

    ghost limit = { MAX_SESSION };

    ghost has_read = { HasMarked };

    ghost answers = { IsMarkedPlanOf };

    fn begin(alloc: Global, priority: &Priority, file: &[u8]) -> Result<MarkedPass, NoMemory> {
        Ok(MarkedPass {
            cutter: GroupCutter::new(alloc, priority)?,
            kept: KeptGroups {
                tables: GroupTables::new(alloc, priority),
                marks: Vec::new(alloc),
            },
            hasher: hasher_of(file),
        })
    }

    fn read(&mut self, portion: &[u8]) -> Result<(), NoMemory> {
        self.hasher.update(portion);
        self.cutter.feed(portion)?;
        keep_ended(&mut self.cutter, &mut self.kept)
    }

    fn end(self, format: &Format) -> Result<MarkedPlan, StreamFault> {
        let mut cutter = self.cutter;
        match cutter.finish() {
            Ok(left) => plan_with(self.kept, self.hasher, &left, format),
            Err(fault) => Err(stream_fault(&self.kept.tables, format, fault)),
        }
    }
}

impl KeptGroups {
    /// Keeps the table and the mark of the next group.
    fn keep(&mut self, group: &Group) -> Result<(), NoMemory>
        ensures { OnOk result ((priority : Priorities) (groups : List CutGroup) → length groups < MAX_GROUPS → IsFit priority group.now.cut
            → AreKept self.old priority groups → AreKept self.new priority (groups ++ group.now ∷ [])) }
    {
        self.tables.keep(&group.cut)?;
        self.marks.push(GroupMark::of(&group.bytes))?;
        Ok(())
    }
}

/// Keeps the groups that have ended.
fn keep_ended(cutter: &mut GroupCutter, kept: &mut KeptGroups) -> Result<(), NoMemory>
    ensures { OnOk result ((priority : Priorities) (stream : List ℕ) → HasKept cutter.old kept.old priority stream
        → HasKept cutter.new kept.new priority stream) }
{
    while let Some(ended) = cutter.next()? {
        kept.keep(&ended)?;
    }
    Ok(())
}

/// Keeps these groups.
fn keep_all(groups: &[Group], kept: &mut KeptGroups) -> Result<(), NoMemory>
    ensures { OnOk result ((priority : Priorities) (before : List CutGroup) → length (before ++ groups.now) ≤ MAX_GROUPS → All (λ group. IsFit priority group.cut) groups.now
        → AreKept kept.old priority before → AreKept kept.new priority (before ++ groups.now)) }
{
    for group in groups {
        kept.keep(group)?;
    }
    Ok(())
}

/// The plan of an accepted stream, of whose groups these are left, by a hasher that has read all.
fn plan_with(
    mut kept: KeptGroups,
    hasher: Sha256,
    left: &[Group],
    format: &Format,
) -> Result<MarkedPlan, StreamFault>
    requires { IsSessionFormat format.now }
    ensures plan { IfOk result (λ marked. (priority : Priorities) (file stream : List ℕ) (given : List CutGroup) → AreAll priority stream (given ++ left.now)
        → AreKept kept priority given → Holds256 hasher (hashed file stream) → IsMarkedPlanOf format.now marked priority file stream) }
    ensures refused { IfErr result (λ fault. (priority : Priorities) (stream : List ℕ) (given : List CutGroup) → AreAll priority stream (given ++ left.now)
        → AreKept kept priority given → IsStreamFaultIn format.now MAX_SESSION priority stream fault) }
{
    keep_all(left, &mut kept)?;
    match judged(kept.tables, format) {
        Ok(tables) => Ok(MarkedPlan {
            plan: SessionPlan {
                number: first_eight(hasher.finalize()),
                tables,
            },
            marks: kept.marks,
        }),
        Err(SessionFault::NoMemory) => Err(StreamFault::NoMemory),
        Err(fault) => Err(StreamFault::Plan(fault)),
    }
}

/// The tables of all groups in a format, or the first cause that holds against their cuts.
fn judged(tables: GroupTables, format: &Format) -> Result<Vec<Table>, SessionFault>
    requires { IsSessionFormat format.now }
    ensures tables { IfOk result (λ made. (priority : Priorities) (cuts : List Cut) → HasTables tables priority cuts
        → (many_fault format.now priority (fault_of_cuts_in format.now MAX_SESSION priority cuts) ≡ None)
        × (made.items ≡ tables_of_in format.now priority cuts)) }
    ensures refused { IfErr result (λ fault. fault ≢ SessionFault.NoMemory → (priority : Priorities) (cuts : List Cut)
        → HasTables tables priority cuts
        → many_fault format.now priority (fault_of_cuts_in format.now MAX_SESSION priority cuts) ≡ Some fault) }
{
    tables.allowed(format)?;
    tables.judged(format, MAX_SESSION)
}

/// The same cause, as one against a stream in a format, where these tables are of the groups that have ended.
fn stream_fault(tables: &GroupTables, format: &Format, fault: CutFault) -> StreamFault
    ensures { (priority : Priorities) (stream : List ℕ) → AreOf tables.now.needs priority → IsCutFault priority stream fault
        → IsStreamFaultIn format.now MAX_SESSION priority stream result }
{
    match fault {
        CutFault::Stream(scan) => StreamFault::Stream(scan),
        CutFault::Groups(fault) => StreamFault::Plan(groups_fault(tables, format, fault)),
        CutFault::NoMemory => StreamFault::NoMemory,
    }
}

/// The cause that a fault of the groups makes: more packets than the format allows come before it.
fn groups_fault(tables: &GroupTables, format: &Format, fault: SplitFault) -> SessionFault
    ensures { (priority : Priorities) (later : Option SessionFault) → AreOf tables.now.needs priority
        → many_fault format.now priority (fault_after (Some fault) later) ≡ Some result }
{
    match tables.allowed(format) {
        Ok(()) => refusal_of(fault),
        Err(many) => many,
    }
}
