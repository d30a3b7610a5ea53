//! The second pass over a stream whose session is sent.
ghost use Rattle.std.specs.Prelude.{◌≡◌, ℕ, ◌+◌, ◌≤◌, List, [], All, ◌++◌, length, true, Some, OnOk, OnErr, IfOk, IfErr, IfSome, IfNone, MatchOption, MatchResult};
ghost use Rattle.std.specs.List.{sum_by};
ghost use Rattle.outside_files.specs.declared.portions.TheConstants.{MAX_PORTION};
ghost use Rattle.stream_groups.specs.CutGroups.{CutGroup};
ghost use Rattle.stream_groups.specs.Cutting.{HaveEnded, AreAll, pieces_left};
ghost use Rattle.stream_groups.specs.laws.FilledLaws.{IsFilled};
ghost use Rattle.stream_groups.specs.laws.FittingLaws.{IsWhole};
ghost use Rattle.pet_base.specs.Causes.{stops};
ghost use Rattle.pet_base.specs.Seen.{Seen, PlaceStops};
ghost use Rattle.pet_base.specs.LinkSeen.{LinkStops};
ghost use Rattle.command_send.specs.Failures.{fault_of_place, fault_of_link};
ghost use Rattle.outside_routes.specs.RouteFaults.{stop_of_a_place, stop_of_a_link};
ghost use Rattle.outside_routes.specs.Sending.{Routes, Sends, IsOpen, OnlyGrows};
ghost use Rattle.pet_base.specs.Lent.{AreSame};
ghost use Rattle.command_send.specs.inside.Job.{job_of, lent};
ghost use Rattle.outside_routes.specs.Way.{way_of};
ghost use Rattle.command_send.specs.Sends.{packets_sent_in};
ghost use Rattle.command_send.specs.inside.Coded.{IsCodedIn};
ghost use Rattle.command_send.specs.inside.Second.{Knows, HasGone, HasReached, Ends, IsFirstLost, NoneLost, OnlyPasses, cost_left};
ghost use Rattle.command_send.specs.Sending.{words_cost, AreFound, IsFirstPass};
ghost use Rattle.command_send.specs.inside.Sending.{HasSentSome, IsPart, IsTaken, HasSentAll, SentPart};
ghost use Rattle.command_send.specs.inside.Sending.{HasSentToChange, IsSendStop, IsToldStop, StopsGroup, StopsPass};

use crate::fault::SendFault;
use crate::job::Job;
use crate::sent_group::{Change, first_mark, send_group};
use field_values::AllValues;
use outside_files::{Portions, portion_room};
use outside_routes::RouteStop;
use pet_base::{Link, MAX_STREAM, Outside, Place, Sink};
use std::alloc::Global;
use std::sync::ledger::Ledger;
use stream_groups::{CutFault, Group, GroupCutter};
use stream_session::GroupMark;

/// How far the groups of a stream are cut and sent.
#[derive(Drop)]
struct SentGroups {
    cutter: GroupCutter,
    /// How many groups were sent.
    sent: u32,
}

/// Where the second reading of a stream stands.
#[derive(Drop)]
struct SecondPass {
    groups: SentGroups,
    /// The least group whose marks differ, once it was met.
    change: Option<Change>,
}

/// Reads the stream again, which is the input, and sends the packets of its groups, each group once it is
/// whole and has the mark and the table of the first pass. The input is read to its end, or one byte past the most that a
/// stream may have, also after a change. It counts at most packets times words of each group.
///
/// # Errors
///
/// `Changed` for the least group whose marks differ; a group that a pass did not find has the mark of none. It never
/// comes where the place tells the stream of the first pass. The packets of the groups before it are then sent, and after
/// another failure a front of the packets.
pub(crate) fn send_groups<P: Place, K: Link, S: Sink, L: Ledger, F: AllValues>(
    alloc: Global,
    job: &Job<'_, '_, F>,
    outside: &mut Outside<P, K, S, L>,
) -> Result<(), SendFault>
    requires input { (lent outside.old).place.has_input ≡ true }
    requires open { IsOpen (way_of job.now.to) (lent outside.old) }
    requires coded { IsCodedIn F.COUNT F.coding job.now.format }
    ensures sent { OnOk result (HasSentAll (job_of F.coding job.now) (lent outside.old) (lent outside.new)) }
    ensures stops { IfErr result (IsSendStop (job_of F.coding job.now) (lent outside.old) (lent outside.new)) }
    ensures told { (p b : List ℕ) → IsFirstPass job.now.format p b job.now.found.source job.now.found.marks.items
        → (lent outside.old).place.rest ≡ Some b → MatchResult result
        (λ _. Sends (way_of job.now.to) (packets_sent_in job.now.format F.coding p b) (lent outside.old) (lent outside.new))
        (IsToldStop (way_of job.now.to) (packets_sent_in job.now.format F.coding p b) (lent outside.old) (lent outside.new)) }
    ensures others { OnlyPasses (lent outside.old) (lent outside.new) }
    ensures cost { outside.new.steps.now
        ≤ outside.old.steps.now + sum_by words_cost job.now.found.source.tables.items }
    ensures once_place { PlaceStops (stops fault_of_place result) (lent outside.old).place (lent outside.new).place }
    ensures once_link { LinkStops (stops fault_of_link result) (lent outside.old).link (lent outside.new).link }
    ensures same { AreSame outside.old outside.new }
    ensures out { outside.new.out.now ≡ outside.old.out.now }
{
    match send_again(alloc, job, outside)? {
        Some(change) => Err(SendFault::Changed(change)),
        None => Ok(()),
    }
}

/// Reads the stream again and puts the packets of its groups, and answers the change.
fn send_again<P: Place, K: Link, S: Sink, L: Ledger, F: AllValues>(
    alloc: Global,
    job: &Job<'_, '_, F>,
    outside: &mut Outside<P, K, S, L>,
) -> Result<Option<Change>, RouteStop>
    requires input { (lent outside.old).place.has_input ≡ true }
    requires open { IsOpen (way_of job.now.to) (lent outside.old) }
    requires coded { IsCodedIn F.COUNT F.coding job.now.format }
    ensures sent { IfOk result (λ change. MatchOption change
        (HasSentAll (job_of F.coding job.now) (lent outside.old) (lent outside.new))
        (λ c. HasSentToChange (job_of F.coding job.now) c (lent outside.old) (lent outside.new))) }
    ensures part { OnErr result (SentPart (job_of F.coding job.now) (lent outside.old) (lent outside.new)) }
    ensures others { OnlyPasses (lent outside.old) (lent outside.new) }
    ensures cause { IfErr result (StopsPass (job_of F.coding job.now) (lent outside.old) (lent outside.new)) }
    ensures cost { outside.new.steps.now
        ≤ outside.old.steps.now + sum_by words_cost job.now.found.source.tables.items }
    ensures once_place { PlaceStops (stops stop_of_a_place result) (lent outside.old).place (lent outside.new).place }
    ensures once_link { LinkStops (stops stop_of_a_link result) (lent outside.old).link (lent outside.new).link }
    ensures same { AreSame outside.old outside.new }
    ensures out { outside.new.out.now ≡ outside.old.out.now }
{
    let mut buffer = portion_room(alloc)?;
    let mut pass = SecondPass {
        groups: SentGroups {
            cutter: GroupCutter::new(alloc, &job.found.source.priority)?,
            sent: 0,
        },
        change: None,
    };
    read_again(alloc, job, &mut buffer, &mut pass, outside)?;
    pass.finish(alloc, job, outside)?;
    Ok(pass.change)
}

/// Reads the input to its end, or one byte past the most that a stream may have, and puts the packets of the groups that
/// have ended. After a change it only reads.
fn read_again<P: Place, K: Link, S: Sink, L: Ledger, F: AllValues>(
    alloc: Global,
    job: &Job<'_, '_, F>,
    buffer: &mut [u8],
    pass: &mut SecondPass,
    outside: &mut Outside<P, K, S, L>,
) -> Result<(), RouteStop>
    requires input { (lent outside.old).place.has_input ≡ true }
    requires open { IsOpen (way_of job.now.to) (lent outside.old) }
    requires coded { IsCodedIn F.COUNT F.coding job.now.format }
    requires room { length buffer.old ≡ MAX_PORTION }
    requires begun { HasReached (job_of F.coding job.now) [] pass.old.change
        pass.old.groups (lent outside.old) (lent outside.old) }
    ensures stands { OnOk result ((stream : List ℕ)
        × IsTaken stream (lent outside.old).place (lent outside.new).place
        × HasReached (job_of F.coding job.now) stream pass.new.change pass.new.groups (lent outside.old) (lent outside.new)) }
    ensures part { OnErr result (SentPart (job_of F.coding job.now) (lent outside.old) (lent outside.new)) }
    ensures others { OnlyPasses (lent outside.old) (lent outside.new) }
    ensures cause { IfErr result (StopsPass (job_of F.coding job.now) (lent outside.old) (lent outside.new)) }
    ensures cost { outside.new.steps.now
        ≤ outside.old.steps.now + cost_left job.now.found.source.tables.items pass.old.groups.sent }
    ensures left { OnOk result (outside.new.steps.now + cost_left job.now.found.source.tables.items
        pass.new.groups.sent ≤ outside.old.steps.now + cost_left job.now.found.source.tables.items
        pass.old.groups.sent) }
    ensures once_place { PlaceStops (stops stop_of_a_place result) (lent outside.old).place (lent outside.new).place }
    ensures once_link { LinkStops (stops stop_of_a_link result) (lent outside.old).link (lent outside.new).link }
    ensures same { AreSame outside.old outside.new }
    ensures out { outside.new.out.now ≡ outside.old.out.now }
{
    let mut portions = Portions::up_to(MAX_STREAM);
    while let Some(count) = portions.next(outside.place, buffer)? {
        pass.feed(alloc, job, &buffer[..count], outside)?;
    }
    Ok(())
}

impl SecondPass {
    /// Reads the next portion, and puts the packets of the groups that have ended. After a change it does nothing.
    fn feed<P: Place, K: Link, S: Sink, L: Ledger, F: AllValues>(
        &mut self,
        alloc: Global,
        job: &Job<'_, '_, F>,
        portion: &[u8],
        outside: &mut Outside<P, K, S, L>,
    ) -> Result<(), RouteStop>
        requires open { IsOpen (way_of job.now.to) (lent outside.old) }
        requires coded { IsCodedIn F.COUNT F.coding job.now.format }
        requires known { IfNone self.old.change
            (Knows self.old.groups.cutter job.now.found.source.priority) }
        ensures stands { OnOk result ((stream : List ℕ) (first : Routes)
            → HasReached (job_of F.coding job.now) stream self.old.change self.old.groups first (lent outside.old)
            → HasReached (job_of F.coding job.now) (stream ++ portion.now) self.new.change self.new.groups first
            (lent outside.new)) }
        ensures part { OnErr result ((stream : List ℕ) (first : Routes)
            → HasReached (job_of F.coding job.now) stream self.old.change self.old.groups first (lent outside.old)
            → IsPart (job_of F.coding job.now) (HaveEnded job.now.found.source.priority (stream ++ portion.now)) first
            (lent outside.new)) }
        ensures others { OnlyGrows (lent outside.old) (lent outside.new) }
        ensures cause { IfErr result (StopsGroup (job_of F.coding job.now) (lent outside.old) (lent outside.new)) }
        ensures cost { outside.new.steps.now
            ≤ outside.old.steps.now + cost_left job.now.found.source.tables.items self.old.groups.sent }
        ensures left { OnOk result (outside.new.steps.now + cost_left job.now.found.source.tables.items
            self.new.groups.sent ≤ outside.old.steps.now + cost_left job.now.found.source.tables.items
            self.old.groups.sent) }
        ensures once_place { PlaceStops (stops stop_of_a_place result) (lent outside.old).place
            (lent outside.new).place }
        ensures once_link { LinkStops (stops stop_of_a_link result) (lent outside.old).link (lent outside.new).link }
        ensures same { AreSame outside.old outside.new }
        ensures out { outside.new.out.now ≡ outside.old.out.now }
    {
        if self.change.is_some() {
            return Ok(());
        }
        self.groups.cutter.feed(portion)?;
        self.change = send_ended(alloc, job, &mut self.groups, outside)?;
        Ok(())
    }

    /// Ends the stream: puts the packets of the groups that are left, up to a change. After a change it does nothing.
    fn finish<P: Place, K: Link, S: Sink, L: Ledger, F: AllValues>(
        &mut self,
        alloc: Global,
        job: &Job<'_, '_, F>,
        outside: &mut Outside<P, K, S, L>,
    ) -> Result<(), RouteStop>
        requires open { IsOpen (way_of job.now.to) (lent outside.old) }
        requires coded { IsCodedIn F.COUNT F.coding job.now.format }
        requires known { IfNone self.old.change
            (Knows self.old.groups.cutter job.now.found.source.priority) }
        ensures all { OnOk result ((stream : List ℕ) (first : Routes)
            → HasReached (job_of F.coding job.now) stream self.old.change self.old.groups first (lent outside.old)
            → Ends (job_of F.coding job.now) stream self.new.change first (lent outside.new)) }
        ensures part { OnErr result ((stream : List ℕ) (first : Routes)
            → HasReached (job_of F.coding job.now) stream self.old.change self.old.groups first (lent outside.old)
            → IsPart (job_of F.coding job.now) (AreFound job.now.found.source.priority stream) first (lent outside.new)) }
        ensures others { OnlyGrows (lent outside.old) (lent outside.new) }
        ensures cause { IfErr result (StopsGroup (job_of F.coding job.now) (lent outside.old) (lent outside.new)) }
        ensures cost { outside.new.steps.now
            ≤ outside.old.steps.now + cost_left job.now.found.source.tables.items self.old.groups.sent }
        ensures once_place { PlaceStops (stops stop_of_a_place result) (lent outside.old).place
            (lent outside.new).place }
        ensures once_link { LinkStops (stops stop_of_a_link result) (lent outside.old).link (lent outside.new).link }
        ensures same { AreSame outside.old outside.new }
        ensures out { outside.new.out.now ≡ outside.old.out.now }
    {
        if self.change.is_some() {
            return Ok(());
        }
        self.change = send_last(alloc, job, &mut self.groups, outside)?;
        Ok(())
    }
}

/// Puts the packets of the groups that have ended, up to a change.
fn send_ended<P: Place, K: Link, S: Sink, L: Ledger, F: AllValues>(
    alloc: Global,
    job: &Job<'_, '_, F>,
    groups: &mut SentGroups,
    outside: &mut Outside<P, K, S, L>,
) -> Result<Option<Change>, RouteStop>
    requires open { IsOpen (way_of job.now.to) (lent outside.old) }
    requires coded { IsCodedIn F.COUNT F.coding job.now.format }
    requires known { Knows groups.old.cutter job.now.found.source.priority }
    ensures stands { IfOk result (λ after. (stream : List ℕ) (first : Routes)
        → HasGone (job_of F.coding job.now) stream groups.old first (lent outside.old)
        → HasReached (job_of F.coding job.now) stream after groups.new first (lent outside.new)) }
    ensures part { OnErr result ((stream : List ℕ) (first : Routes)
        → HasGone (job_of F.coding job.now) stream groups.old first (lent outside.old)
        → IsPart (job_of F.coding job.now) (HaveEnded job.now.found.source.priority stream) first (lent outside.new)) }
    ensures others { OnlyGrows (lent outside.old) (lent outside.new) }
    ensures cause { IfErr result (StopsGroup (job_of F.coding job.now) (lent outside.old) (lent outside.new)) }
    ensures cost { outside.new.steps.now
        ≤ outside.old.steps.now + cost_left job.now.found.source.tables.items groups.old.sent }
    ensures left { OnOk result (outside.new.steps.now + cost_left job.now.found.source.tables.items groups.new.sent
        ≤ outside.old.steps.now + cost_left job.now.found.source.tables.items groups.old.sent) }
    ensures once_place { PlaceStops (stops stop_of_a_place result) (lent outside.old).place (lent outside.new).place }
    ensures once_link { LinkStops (stops stop_of_a_link result) (lent outside.old).link (lent outside.new).link }
    ensures same { AreSame outside.old outside.new }
    ensures out { outside.new.out.now ≡ outside.old.out.now }
{
    while let Some(group) = groups.cutter.next()? {
        let change = send_group(alloc, job, groups.sent, &group, outside)?;
        if change.is_some() {
            return Ok(change);
        }
        groups.sent += 1;
    }
    Ok(None)
}

/// Ends the stream: puts the packets of the groups that are left, up to a change.
fn send_last<P: Place, K: Link, S: Sink, L: Ledger, F: AllValues>(
    alloc: Global,
    job: &Job<'_, '_, F>,
    groups: &mut SentGroups,
    outside: &mut Outside<P, K, S, L>,
) -> Result<Option<Change>, RouteStop>
    requires open { IsOpen (way_of job.now.to) (lent outside.old) }
    requires coded { IsCodedIn F.COUNT F.coding job.now.format }
    requires known { Knows groups.old.cutter job.now.found.source.priority }
    ensures all { IfOk result (λ after. (stream : List ℕ) (first : Routes)
        → HasGone (job_of F.coding job.now) stream groups.old first (lent outside.old)
        → pieces_left groups.old.cutter ≡ 0 → Ends (job_of F.coding job.now) stream after first (lent outside.new)) }
    ensures part { OnErr result ((stream : List ℕ) (first : Routes)
        → HasGone (job_of F.coding job.now) stream groups.old first (lent outside.old)
        → IsPart (job_of F.coding job.now) (AreFound job.now.found.source.priority stream) first (lent outside.new)) }
    ensures others { OnlyGrows (lent outside.old) (lent outside.new) }
    ensures cause { IfErr result (StopsGroup (job_of F.coding job.now) (lent outside.old) (lent outside.new)) }
    ensures cost { outside.new.steps.now
        ≤ outside.old.steps.now + cost_left job.now.found.source.tables.items groups.old.sent }
    ensures once_place { PlaceStops (stops stop_of_a_place result) (lent outside.old).place (lent outside.new).place }
    ensures once_link { LinkStops (stops stop_of_a_link result) (lent outside.old).link (lent outside.new).link }
    ensures same { AreSame outside.old outside.new }
    ensures out { outside.new.out.now ≡ outside.old.out.now }
{
    match groups.cutter.finish() {
        Ok(left) => send_left(alloc, job, groups.sent, &left, outside),
        Err(fault) => match fault {
            CutFault::NoMemory => Err(RouteStop::NoMemory),
            _ => Ok(first_lost(job, groups.sent)),
        },
    }
}

/// Puts the packets of these groups, the last of the stream, of which the first has this number, up to a change.
fn send_left<P: Place, K: Link, S: Sink, L: Ledger, F: AllValues>(
    alloc: Global,
    job: &Job<'_, '_, F>,
    from: u32,
    groups: &[Group],
    outside: &mut Outside<P, K, S, L>,
) -> Result<Option<Change>, RouteStop>
    requires open { IsOpen (way_of job.now.to) (lent outside.old) }
    requires coded { IsCodedIn F.COUNT F.coding job.now.format }
    requires whole { All (IsWhole (length job.now.found.source.priority.layers)) groups.now }
    requires filled { All IsFilled groups.now }
    ensures all { IfOk result (λ after. (stream : List ℕ) (first : Routes) (before : List CutGroup)
        → from ≡ length before
        → AreAll job.now.found.source.priority stream (before ++ groups.now)
        → HasSentSome (job_of F.coding job.now) before first (lent outside.old)
        → Ends (job_of F.coding job.now) stream after first (lent outside.new)) }
    ensures part { OnErr result ((stream : List ℕ) (first : Routes) (before : List CutGroup)
        → from ≡ length before
        → AreAll job.now.found.source.priority stream (before ++ groups.now)
        → HasSentSome (job_of F.coding job.now) before first (lent outside.old)
        → IsPart (job_of F.coding job.now) (AreFound job.now.found.source.priority stream) first (lent outside.new)) }
    ensures others { OnlyGrows (lent outside.old) (lent outside.new) }
    ensures cause { IfErr result (StopsGroup (job_of F.coding job.now) (lent outside.old) (lent outside.new)) }
    ensures cost { outside.new.steps.now
        ≤ outside.old.steps.now + cost_left job.now.found.source.tables.items from }
    ensures once_place { PlaceStops (stops stop_of_a_place result) (lent outside.old).place (lent outside.new).place }
    ensures once_link { LinkStops (stops stop_of_a_link result) (lent outside.old).link (lent outside.new).link }
    ensures same { AreSame outside.old outside.new }
    ensures out { outside.new.out.now ≡ outside.old.out.now }
{
    let mut number = from;
    for group in groups {
        let change = send_group(alloc, job, number, group, outside)?;
        if change.is_some() {
            return Ok(change);
        }
        number += 1;
    }
    Ok(first_lost(job, number))
}

/// The first group of the first pass, from this one on, whose mark is not that of none.
fn first_lost<F>(job: &Job<'_, '_, F>, from: u32) -> Option<Change>
    ensures lost { IfSome result (IsFirstLost job.now.found.marks.items from) }
    ensures none { IfNone result (NoneLost job.now.found.marks.items from) }
{
    for group in from..job.found.marks.len() as u32 {
        let first = first_mark(job, group);
        if first != GroupMark::none() {
            return Some(Change {
                group,
                first,
                second: GroupMark::none(),
            });
        }
    }
    None
}
