//! The command `check`.
ghost use Rattle.std.specs.Prelude.{◌≡◌, ◌≤◌, ℕ, map, length, false, Ok, IfOk, IfErr};
ghost use Rattle.pet_base.specs.declared.limits.TheConstants.{MAX_GROUPS, MAX_PLAN_FILE};
ghost use Rattle.pet_base.specs.Causes.{stops};
ghost use Rattle.pet_base.specs.Seen.{Seen, PlaceStops};
ghost use Rattle.text_plan.specs.PlanFile.{lists_of};
ghost use Rattle.command_plan.specs.Certified.{IsCertified, AreLeast, tables_of_files};
ghost use Rattle.command_plan.specs.Checked.{ChecksSession};
ghost use Rattle.command_plan.specs.inside.Checking.{HasLists, HasNoLists, HasNoListsIn, AreNotLeast};
ghost use Rattle.command_plan.specs.Checks.{Checks};
ghost use Rattle.command_plan.specs.Ends.{check_failed};

use crate::least::is_least;
use mpeg_scan::Scan;
use outside_files::read_file;
use pet_base::{MAX_PLAN_FILE, NoMemory, Place, Stop};
use priority_file::PriorityFault;
use session_source::{SourceFault, read_source};
use std::alloc::Global;
use stream_session::SessionFault;
use stripe_plan::Table;
use text_plan::{PlanFault, Repeat, read_plan};

/// How `check` ended.
#[derive(Clone, Copy, Debug, PartialEq, Eq)]
pub enum CheckEnd {
    /// The lists are certificates, for so many groups.
    Done(u32),
    /// No memory was found.
    NoMemory,
    /// A file could not be read.
    PlaceFault,
    /// The priority file is refused.
    BadPriority(PriorityFault),
    /// The stream is refused.
    BadStream(Scan),
    /// There is no plan of the stream.
    BadPlan(SessionFault),
    /// The plan file is longer than 268,435,456 bytes.
    PlanLong,
    /// The first line of lengths that has another form, counted from 1 over all lines.
    Text(u64),
    /// The lines of lengths are so many, and the groups are not.
    Lines(u64),
    /// The first group whose lengths are no certificate.
    NotLeast(u32),
}

impl From<NoMemory> for CheckEnd {
    ghost use Rattle.command_plan.specs.declared.checking.CheckEnd.TheVariants.{NoMemory as no_memory};

    ghost from_gives = { λ _ end. end ≡ no_memory };

    fn from(_e: NoMemory) -> CheckEnd {
        CheckEnd::NoMemory
    }
}

impl From<SourceFault> for CheckEnd {
    ghost use Rattle.command_plan.specs.Ends.{check_end};

    ghost from_gives = { λ fault end. end ≡ check_end fault };

    fn from(fault: SourceFault) -> CheckEnd {
        match fault {
            SourceFault::NoMemory => CheckEnd::NoMemory,
            SourceFault::Failed => CheckEnd::PlaceFault,
            SourceFault::Priority(fault) => CheckEnd::BadPriority(fault),
            SourceFault::Stream(scan) => CheckEnd::BadStream(scan),
            SourceFault::Plan(fault) => CheckEnd::BadPlan(fault),
        }
    }
}

/// Tells whether the stripe lengths that PLAN lists are a certificate for each group of the session
/// that STREAM and PRIORITY are. The files are read and judged one by one: PRIORITY, STREAM, PLAN. The first failure of a file
/// ends it.
pub fn check<P: Place>(
    alloc: Global,
    stream: &str,
    priority: &str,
    plan: &str,
    place: &mut P,
) -> CheckEnd
    ensures checks { Checks (P.seen place.old) (P.seen place.new) stream.now priority.now plan.now
        result }
    ensures files { (P.seen place.new).files ≡ (P.seen place.old).files }
    ensures completes { ChecksSession stream.now priority.now plan.now (P.seen place.old)
        (P.seen place.new) result }
    ensures once { PlaceStops (check_failed result) (P.seen place.old) (P.seen place.new) }
{
    match certified_groups(alloc, stream, priority, plan, place) {
        Ok(groups) => CheckEnd::Done(groups),
        Err(end) => end,
    }
}

/// The number of groups, where the lists are certificates.
fn certified_groups<P: Place>(
    alloc: Global,
    stream: &str,
    priority: &str,
    plan: &str,
    place: &mut P,
) -> Result<u32, CheckEnd>
    ensures groups { IfOk result (λ n.
        (c : IsCertified (P.seen place.old) stream.now priority.now plan.now)
        × (n ≡ length (tables_of_files c.listed.files))) }
    ensures cause { IfErr result
        (Checks (P.seen place.old) (P.seen place.new) stream.now priority.now plan.now) }
    ensures files { (P.seen place.new).files ≡ (P.seen place.old).files }
    ensures once { PlaceStops (stops check_failed result) (P.seen place.old) (P.seen place.new) }
{
    let source = read_source(alloc, stream, priority, place)?;
    let tables = source.tables.as_slice();
    let lists = read_lists(alloc, plan, place)?;
    certify(alloc, tables, lists.as_slice())
}

/// The lists of lengths of a plan file.
fn read_lists<P: Place>(
    alloc: Global,
    plan: &str,
    place: &mut P,
) -> Result<Vec<Vec<Repeat>>, CheckEnd>
    ensures lists { IfOk result (λ lists.
        HasLists (P.seen place.old) plan.now (map (λ list. list.items) lists.items)) }
    ensures cause { IfErr result (HasNoLists (P.seen place.old) (P.seen place.new) plan.now) }
    ensures files { (P.seen place.new).files ≡ (P.seen place.old).files }
    ensures later { (P.seen place.old).faults ≤ (P.seen place.new).faults }
    ensures once { PlaceStops (stops check_failed result) (P.seen place.old) (P.seen place.new) }
{
    match read_file(alloc, plan, MAX_PLAN_FILE, place) {
        Ok(bytes) => lists_in(alloc, bytes.as_slice()),
        Err(Stop::NoMemory) => Err(CheckEnd::NoMemory),
        Err(Stop::Failed) => Err(CheckEnd::PlaceFault),
    }
}

/// The lists of lengths in the bytes of a plan file, of which at most one past the limit are given.
fn lists_in(alloc: Global, bytes: &[u8]) -> Result<Vec<Vec<Repeat>>, CheckEnd>
    ensures lists { IfOk result (λ lists. (length bytes.now ≤ MAX_PLAN_FILE)
        × (lists_of bytes.now ≡ Ok (map (λ list. list.items) lists.items))) }
    ensures cause { IfErr result (HasNoListsIn bytes.now) }
    ensures calm { stops check_failed result ≡ false }
{
    if bytes.len() as u64 > MAX_PLAN_FILE {
        return Err(CheckEnd::PlanLong);
    }
    match read_plan(alloc, bytes) {
        Ok(lists) => Ok(lists),
        Err(PlanFault::Text(line)) => Err(CheckEnd::Text(line)),
        Err(PlanFault::NoMemory) => Err(CheckEnd::NoMemory),
    }
}

/// Whether each group has a list, and that is a certificate: then how many they are.
fn certify(alloc: Global, tables: &[Table], lists: &[Vec<Repeat>]) -> Result<u32, CheckEnd>
    requires few { length tables.now ≤ MAX_GROUPS }
    ensures least { IfOk result (λ n. (n ≡ length tables.now)
        × AreLeast tables.now (map (λ list. list.items) lists.now)) }
    ensures cause { IfErr result (AreNotLeast tables.now (map (λ list. list.items) lists.now)) }
    ensures calm { stops check_failed result ≡ false }
{
    if lists.len() != tables.len() {
        return Err(CheckEnd::Lines(lists.len() as u64));
    }
    for group in 0..tables.len() {
        let is = is_least(alloc, &tables[group], lists[group].as_slice())?;
        if !is {
            return Err(CheckEnd::NotLeast(group as u32));
        }
    }
    Ok(tables.len() as u32)
}
