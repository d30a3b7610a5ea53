//! A group of the second pass: it is compared with the first pass's, and its packets are sent.
ghost use Rattle.std.specs.Prelude.{◌≡◌, ◌≢◌, ◌↔◌, ◌+◌, ◌<◌, ◌≤◌, ℕ, length, true, Some, slice_get, OnOk, OnErr, IfOk, IfErr, IfSome, IsTrue, MatchOption};
ghost use Rattle.stream_groups.specs.laws.FilledLaws.{IsFilled};
ghost use Rattle.stream_groups.specs.laws.FittingLaws.{IsWhole};
ghost use Rattle.layer_split.specs.Layers as layers;
ghost use Rattle.stream_session.specs.Marks.{mark_at};
ghost use Rattle.stream_session.specs.Tables.{table_of_in, IsSessionFormat};
ghost use Rattle.pet_base.specs.Causes.{stops};
ghost use Rattle.pet_base.specs.Seen.{PlaceStops};
ghost use Rattle.pet_base.specs.LinkSeen.{LinkStops};
ghost use Rattle.outside_routes.specs.RouteFaults.{stop_of_a_place, stop_of_a_link};
ghost use Rattle.outside_routes.specs.Sending.{Sends, SendsPart, IsOpen, OnlyGrows};
ghost use Rattle.outside_routes.specs.Way.{way_of};
ghost use Rattle.pet_base.specs.Lent.{AreSame};
ghost use Rattle.command_send.specs.inside.Job.{job_of, lent};
ghost use Rattle.command_send.specs.inside.Sending.{StopsGroup};
ghost use Rattle.command_send.specs.inside.Second.{SendsGroup, SendsGroupPart, Differs, cost_at, datagrams_of};
ghost use Rattle.command_send.specs.inside.Coded.{coded_of, IsCodedIn};

use crate::job::Job;
use crate::table::is_table_in;
use field_values::AllValues;
use layer_split::{GroupCut, message_by};
use outside_routes::RouteStop;
use packet_encoder::PacketEncoder;
use packet_frame::{Format, Header};
use packet_sending::put_group;
use pet_base::{Link, NoMemory, Outside, Place, Sink};
use std::alloc::Global;
use std::sync::ledger::Ledger;
use stream_groups::Group;
use stream_session::GroupMark;

/// The group at which two passes differ, and its marks in both.
#[derive(Clone, Copy, Debug, PartialEq, Eq)]
pub struct Change {
    /// Counted from 0.
    pub group: u32,
    pub first: GroupMark,
    pub second: GroupMark,
}

/// Sends the packets of the group under this number, where its mark and its table are those of the first pass; else it
/// sends nothing, and answers the change. A group with that mark and another table has no mark in the second pass.
pub(crate) fn send_group<P: Place, K: Link, S: Sink, L: Ledger, F: AllValues>(
    alloc: Global,
    job: &Job<'_, '_, F>,
    number: u32,
    group: &Group,
    outside: &mut Outside<P, K, S, L>,
) -> Result<Option<Change>, RouteStop>
    requires open { IsOpen (way_of job.now.to) (lent outside.old) }
    requires coded { IsCodedIn F.COUNT F.coding job.now.format }
    requires whole { IsWhole (length job.now.found.source.priority.layers) group.now }
    requires filled { IsFilled group.now }
    ensures sends { IfOk result
        (λ change. MatchOption change
        (SendsGroup (job_of F.coding job.now) number group.now (lent outside.old) (lent outside.new))
        (Differs (job_of F.coding job.now) number group.now (lent outside.old) (lent outside.new))) }
    ensures part { OnErr result (SendsGroupPart (job_of F.coding job.now) number group.now
        (lent outside.old) (lent outside.new)) }
    ensures others { OnlyGrows (lent outside.old) (lent outside.new) }
    ensures cause { IfErr result (StopsGroup (job_of F.coding job.now) (lent outside.old) (lent outside.new)) }
    ensures cost { outside.new.steps.now
        ≤ outside.old.steps.now + cost_at (slice_get job.now.found.source.tables.items number) }
    ensures idle { IfOk result (λ change. IfSome change (λ _. outside.new.steps.now ≡ outside.old.steps.now)) }
    ensures once_place { PlaceStops (stops stop_of_a_place result) (lent outside.old).place (lent outside.new).place }
    ensures once_link { LinkStops (stops stop_of_a_link result) (lent outside.old).link (lent outside.new).link }
    ensures same { AreSame outside.old outside.new }
    ensures out { outside.new.out.now ≡ outside.old.out.now }
{
    let first = first_mark(job, number);
    let second = GroupMark::of(&group.bytes);
    if first != second {
        return Ok(Some(Change {
            group: number,
            first,
            second,
        }));
    }
    if !has_table(job, number, &group.cut) {
        return Ok(Some(Change {
            group: number,
            first,
            second: GroupMark::none(),
        }));
    }
    put_packets(alloc, job, number, group, outside)?;
    Ok(None)
}

/// The mark of the first pass at this place, and that of no group where it has none.
pub(crate) fn first_mark<F>(job: &Job<'_, '_, F>, number: u32) -> GroupMark
    ensures { result ≡ mark_at job.now.found.marks.items number }
{
    match job.found.marks.get(number as usize) {
        Some(mark) => *mark,
        None => GroupMark::none(),
    }
}

/// Whether the table of the first pass under this number is that of the cut.
fn has_table<F>(job: &Job<'_, '_, F>, number: u32, cut: &GroupCut) -> bool
    ensures { IsTrue result ↔ (slice_get job.now.found.source.tables.items number
        ≡ Some (table_of_in job.now.format job.now.found.source.priority cut.now)) }
{
    let source = &job.found.source;
    match source.tables.get(number as usize) {
        Some(table) => is_table_in(&job.format, &source.priority, cut, table),
        None => false,
    }
}

/// Sends the packets of the group under this number, whose table is the first pass's.
fn put_packets<P: Place, K: Link, S: Sink, L: Ledger, F: AllValues>(
    alloc: Global,
    job: &Job<'_, '_, F>,
    number: u32,
    group: &Group,
    outside: &mut Outside<P, K, S, L>,
) -> Result<(), RouteStop>
    requires open { IsOpen (way_of job.now.to) (lent outside.old) }
    requires coded { IsCodedIn F.COUNT F.coding job.now.format }
    requires there { slice_get job.now.found.source.tables.items number
        ≡ Some (table_of_in job.now.format job.now.found.source.priority group.now.cut) }
    requires whole { IsWhole (length job.now.found.source.priority.layers) group.now }
    ensures sends { OnOk result (Sends (way_of job.now.to)
        (datagrams_of (job_of F.coding job.now) number group.now)
        (lent outside.old) (lent outside.new)) }
    ensures part { OnErr result (SendsPart (way_of job.now.to)
        (datagrams_of (job_of F.coding job.now) number group.now)
        (lent outside.old) (lent outside.new)) }
    ensures others { OnlyGrows (lent outside.old) (lent outside.new) }
    ensures cause { IfErr result (StopsGroup (job_of F.coding job.now) (lent outside.old) (lent outside.new)) }
    ensures cost { outside.new.steps.now
        ≤ outside.old.steps.now + cost_at (slice_get job.now.found.source.tables.items number) }
    ensures once_place { PlaceStops (stops stop_of_a_place result) (lent outside.old).place (lent outside.new).place }
    ensures once_link { LinkStops (stops stop_of_a_link result) (lent outside.old).link (lent outside.new).link }
    ensures same { AreSame outside.old outside.new }
    ensures out { outside.new.out.now ≡ outside.old.out.now }
{
    let encoder = encoder_of(alloc, job, number, group)?;
    put_group(
        alloc,
        job.to,
        outside.place,
        outside.link,
        &encoder,
        outside.steps,
    )
}

/// The encoder of the group under this number, whose table is the first pass's.
fn encoder_of<'f, F: AllValues>(
    alloc: Global,
    job: &Job<'f, '_, F>,
    number: u32,
    group: &Group,
) -> Result<PacketEncoder<'f, F>, NoMemory>
    requires coded { IsCodedIn F.COUNT F.coding job.now.format }
    requires there { slice_get job.now.found.source.tables.items number
        ≡ Some (table_of_in job.now.format job.now.found.source.priority group.now.cut) }
    requires whole { IsWhole (length job.now.found.source.priority.layers) group.now }
    ensures { IfOk result (λ encoder. encoder
        ≡ coded_of job.now.format job.now.found.source number group.now) }
{
    let bytes = message_of(alloc, &job.format, group)?;
    let header = Header {
        session: job.found.source.number,
        groups: job.found.source.tables.len() as u32,
        group: number,
        table: job.found.source.tables[number as usize].clone()?,
    };
    PacketEncoder::new(alloc, job.field, job.format, header, &bytes)
}

/// The message of a group in a format.
fn message_of(alloc: Global, format: &Format, group: &Group) -> Result<Vec<u8>, NoMemory>
    requires format { IsSessionFormat format.now }
    requires whole { (count : ℕ) × IsWhole count group.now }
    ensures { IfOk result (λ bytes. bytes.items ≡ layers.message_by format.now.word group.now.bytes
        group.now.cut.runs (length group.now.cut.lengths)) }
{
    let mut bytes = Vec::with_capacity(alloc, message_room(&group.cut))?;
    message_by(&group.bytes, &group.cut, format.word as u32, &mut bytes)?;
    Ok(bytes)
}

/// How many bytes the message of a group has at most, whose layers may each end with one byte more. It is asked for speed alone.
fn message_room(cut: &GroupCut) -> usize {
    let mut room = cut.lengths.len();
    for length in cut.lengths.as_slice() {
        room = room.saturating_add(*length as usize);
    }
    room
}
