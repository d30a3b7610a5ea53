//! The sending of a session: both files are read, and then the stream again.
ghost use Rattle.std.specs.Prelude.{◌≡◌, ◌+◌, ◌≤◌, ◌*◌, ℕ, List, length, OnOk, OnErr, IfOk, IfErr};
ghost use Rattle.std.specs.List.{sum_by};
ghost use Rattle.pet_base.specs.Seen.{Seen, KeepsOutput, HadFault, PlaceStops};
ghost use Rattle.session_source.specs.Sources.{IsSourceFaultIn};
ghost use Rattle.pet_base.specs.declared.limits.TheConstants.{MAX_SESSION};
ghost use Rattle.command_send.specs.inside.Coded.{IsCodedIn};
ghost use Rattle.stream_session.specs.Tables.{IsSessionFormat};
ghost use Rattle.pet_base.specs.Causes.{stops};
ghost use Rattle.pet_base.specs.LinkSeen.{LinkStops};
ghost use Rattle.outside_routes.specs.RouteFaults.{IsStop, AimedFailed, stop_of_a_place, stop_of_a_link};
ghost use Rattle.command_send.specs.Failures.{fault_of_place, fault_of_link};
ghost use Rattle.session_source.specs.Sources.{has_failed as source_failed};
ghost use Rattle.pet_base.specs.Lent.{AreSame};
ghost use Rattle.command_send.specs.inside.Job.{job_of, lent};
ghost use Rattle.outside_routes.specs.Way.{way_of};
ghost use Rattle.command_send.specs.Sends.{CostsIn, HasPackets, IsOther, IsSentOf, KeepsLink, LeavesSentFront};
ghost use Rattle.command_send.specs.inside.SendParts.{IsReadFrom, IsReopened, IsLeftEmpty, IsOfReopened, IsSendFault};
ghost use Rattle.command_send.specs.inside.SendParts.{SessionSent, SessionLeft, SessionStops};
ghost use Rattle.command_send.specs.Sending.{words_cost};
ghost use Rattle.stream_session.specs.Sessions.{HasSessionIn};

use crate::fault::SendFault;
use crate::job::Job;
use crate::second::send_groups;
use field_values::AllValues;
use outside_routes::{Route, RouteStop, open_route};
use packet_frame::Format;
use pet_base::{Link, Outside, Place, Sink};
use session_source::{SourceFault, read_marked_in};
use std::alloc::Global;
use std::sync::ledger::Ledger;

/// What was sent.
#[derive(Clone, Copy, Debug, PartialEq, Eq)]
pub struct Sent {
    /// The number of the session.
    pub session: [u8; 8],
    pub groups: u32,
    /// The packets of all groups.
    pub datagrams: u32,
}

/// Reads both files, and sends all packets.
pub(crate) fn send_all<P: Place, K: Link, S: Sink, L: Ledger, F: AllValues>(
    alloc: Global,
    field: &F,
    format: Format,
    stream: &str,
    priority: &str,
    to: Route<'_>,
    outside: &mut Outside<P, K, S, L>,
) -> Result<Sent, SendFault>
    requires differ { IsOther (way_of to) stream.now }
    requires coded { IsCodedIn F.COUNT F.coding format }
    ensures sent { IfOk result (λ sent. (s : HasSessionIn format (lent outside.old).place stream.now priority.now)
        × HasPackets format F.coding (lent outside.old) s (way_of to.entry) (lent outside.new)
        × IsSentOf s.priority_bytes s.stream_bytes sent) }
    ensures cause { IfErr result (IsSendFault format F.coding (lent outside.old) (lent outside.new) stream.now
        priority.now (way_of to.entry)) }
    ensures left { OnErr result (LeavesSentFront format F.coding stream.now priority.now (way_of to.entry)
        (lent outside.old) (lent outside.new)) }
    ensures link { KeepsLink (way_of to.entry) (lent outside.old).link (lent outside.new).link }
    ensures costs { CostsIn format stream.now priority.now
        (lent outside.old).place outside.old.steps.now outside.new.steps.now }
    ensures once_place { PlaceStops (stops fault_of_place result) (lent outside.old).place (lent outside.new).place }
    ensures once_link { LinkStops (stops fault_of_link result) (lent outside.old).link (lent outside.new).link }
    ensures same { AreSame outside.old outside.new }
    ensures out { outside.new.out.now ≡ outside.old.out.now }
{
    let job = read_first(alloc, field, format, stream, priority, to, outside.place)?;
    send_session(alloc, stream, &job, outside)?;
    Ok(sent_of(&job))
}

/// Reads both files, and answers what is then to be sent.
pub(crate) fn read_first<'f, 'a, P: Place, F>(
    alloc: Global,
    field: &'f F,
    format: Format,
    stream: &str,
    priority: &str,
    to: Route<'a>,
    place: &mut P,
) -> Result<Job<'f, 'a, F>, SourceFault>
    requires { IsSessionFormat format }
    ensures read { IfOk result (λ job. IsReadFrom job.format (P.seen place.old) stream.now priority.now
        job.found.source job.found.marks.items) }
    ensures to { IfOk result (λ job. job.to ≡ to.entry) }
    ensures format { IfOk result (λ job. job.format ≡ format) }
    ensures others { KeepsOutput (P.seen place.old) (P.seen place.new) }
    ensures later { (P.seen place.old).faults ≤ (P.seen place.new).faults }
    ensures cause { IfErr result (IsSourceFaultIn format MAX_SESSION (P.seen place.old) (P.seen place.new)
        stream.now priority.now) }
    ensures once_place { PlaceStops (stops source_failed result) (P.seen place.old)
        (P.seen place.new) }
{
    let found = read_marked_in(alloc, &format, stream, priority, place)?;
    Ok(Job {
        found,
        field,
        format,
        to,
    })
}

/// Makes the route ready, reads the stream again and sends its groups.
fn send_session<P: Place, K: Link, S: Sink, L: Ledger, F: AllValues>(
    alloc: Global,
    stream: &str,
    job: &Job<'_, '_, F>,
    outside: &mut Outside<P, K, S, L>,
) -> Result<(), SendFault>
    requires differ { IsOther (way_of job.now.to) stream.now }
    requires coded { IsCodedIn F.COUNT F.coding job.now.format }
    ensures sent { OnOk result (SessionSent (job_of F.coding job.now) stream.now (lent outside.old) (lent outside.new)) }
    ensures left { OnErr result (SessionLeft (job_of F.coding job.now) stream.now (lent outside.old) (lent outside.new)) }
    ensures cause { IfErr result (SessionStops (job_of F.coding job.now) stream.now (lent outside.old) (lent outside.new)) }
    ensures link { KeepsLink (way_of job.now.to) (lent outside.old).link (lent outside.new).link }
    ensures cost { outside.new.steps.now
        ≤ outside.old.steps.now + sum_by words_cost job.now.found.source.tables.items }
    ensures once_place { PlaceStops (stops fault_of_place result) (lent outside.old).place (lent outside.new).place }
    ensures once_link { LinkStops (stops fault_of_link result) (lent outside.old).link (lent outside.new).link }
    ensures same { AreSame outside.old outside.new }
    ensures out { outside.new.out.now ≡ outside.old.out.now }
{
    reopen(stream, job.to, outside)?;
    send_groups(alloc, job, outside)
}

/// Makes the route ready: the one file is an empty output, or the link is aimed; and the other file is the input again.
fn reopen<P: Place, K: Link, S: Sink, L: Ledger>(
    stream: &str,
    to: Route<'_>,
    outside: &mut Outside<P, K, S, L>,
) -> Result<(), RouteStop>
    requires differ { IsOther (way_of to) stream.now }
    ensures opened { OnOk result (IsReopened stream.now (way_of to.entry) (lent outside.old) (lent outside.new)) }
    ensures err { OnErr result (IsLeftEmpty (way_of to.entry) (lent outside.old) (lent outside.new)) }
    ensures link { KeepsLink (way_of to.entry) (lent outside.old).link (lent outside.new).link }
    ensures later { (lent outside.old).place.faults ≤ (lent outside.new).place.faults }
    ensures cause { IfErr result (IsStop (HadFault (lent outside.old).place (lent outside.new).place
        (IsOfReopened stream.now (way_of to.entry)))
        (AimedFailed (way_of to.entry) (lent outside.old).link (lent outside.new).link) ⊥) }
    ensures once_place { PlaceStops (stops stop_of_a_place result) (lent outside.old).place (lent outside.new).place }
    ensures once_link { LinkStops (stops stop_of_a_link result) (lent outside.old).link (lent outside.new).link }
    ensures steps { outside.new.steps.now ≡ outside.old.steps.now }
    ensures same { AreSame outside.old outside.new }
    ensures out { outside.new.out.now ≡ outside.old.out.now }
{
    open_route(to, outside.place, outside.link)?;
    outside.place.enter(stream)?;
    Ok(())
}

/// The packets of a session: each group has as many as the priority says.
fn sent_of<F>(job: &Job<'_, '_, F>) -> Sent
    ensures session { result.session ≡ job.now.found.source.number }
    ensures groups { result.groups ≡ length job.now.found.source.tables.items }
    ensures datagrams { result.datagrams
        ≡ length job.now.found.source.tables.items * job.now.found.source.priority.packets }
{
    let groups = job.found.source.tables.len() as u32;
    Sent {
        session: job.found.source.number,
        groups,
        datagrams: groups * u32::from(job.found.source.priority.packets),
    }
}
