//! What the tests of each command share: a run of a command on objects in memory, and the first row of a table that is not so.
use command_plan::{CheckEnd, PlanEnd, check, plan};
use command_send::{SendEnd, send};
use outside_routes::Route;
use pet_base::{Link, MemoryLink, MemoryPlace, MemorySink, NoMemory, Outside, Place, Sink};
use session_source::SourceFault;
use std::alloc::{AllocError, Global};
use std::sync::ledger::Ledger;
use test_outside::{Runs, run_on};
use test_script::packets;

/// A stream: its front, and bytes that follow it so many times.
pub(crate) type Stream = (&'static [u8], &'static [u8], u32);

/// The stream `s`, the priorities `f` and the plan `p`, where they are there.
pub(crate) type Files = (Option<Stream>, Option<&'static str>, Option<&'static str>);

/// A command, and how it ends.
#[derive(Clone, Copy)]
pub(crate) enum Run {
    /// `plan` of `s` and `f`: its text, or why there is none.
    Plan(Result<&'static str, SourceFault>),
    /// `check` of `s`, `f` and `p`.
    Check(CheckEnd),
    /// `send` of `s` and `f` to the file `d`.
    Send(SendEnd),
    /// The same to the address `x:1`.
    SendByLink(SendEnd),
}

/// Files; the calls of the place and of the link that fail; the command and its end; how many packets of the example session the
/// file `d` then has, where it is there; and how many the link has sent. Nothing is printed.
pub(crate) type Case = (Files, [&'static [u64]; 2], Run, Option<usize>, usize);

/// No call fails.
pub(crate) const ALL_GO: [&[u64]; 2] = [&[], &[]];

/// Three groups of 11 bytes, each a group of pictures and an I picture, and the first two, and the first.
pub(crate) const GROUPS: &[u8] = &[
    0, 0, 1, 0xB8, 1, 0, 0, 1, 0, 0, 8, 0, 0, 1, 0xB8, 2, 0, 0, 1, 0, 0, 8, 0, 0, 1, 0xB8, 3, 0, 0,
    1, 0, 0, 8,
];

pub(crate) const TWO_GROUPS: &[u8] = &[
    0, 0, 1, 0xB8, 1, 0, 0, 1, 0, 0, 8, 0, 0, 1, 0xB8, 2, 0, 0, 1, 0, 0, 8,
];

pub(crate) const ONE_GROUP: &[u8] = &[0, 0, 1, 0xB8, 1, 0, 0, 1, 0, 0, 8];

/// A head, and a picture of no type.
pub(crate) const NO_TYPE: &[u8] = &[0, 0, 1, 0xB3, 0, 0, 1, 0, 0, 0x28];

/// The number of the first of these cases that is not so.
pub(crate) fn first_wrong(alloc: Global, cases: &[Case]) -> Option<usize> {
    for row in 0..cases.len() {
        if !is_so(alloc, &cases[row]).unwrap_or(false) {
            return Some(row);
        }
    }
    None
}

/// Whether this case is so.
pub(crate) fn is_so(alloc: Global, case: &Case) -> Result<bool, NoMemory> {
    let mut place = place_of(alloc, &case.0, case.1[0])?;
    Ok(sends(alloc, case, &mut place)? && has_packets(alloc, place.bytes_of("d"), case.3)?)
}

/// A place that has these files, and whose calls of these numbers fail.
pub(crate) fn place_of(
    alloc: Global,
    (stream, priorities, plan): &Files,
    failing: &[u64],
) -> Result<MemoryPlace, NoMemory> {
    let mut place = MemoryPlace::new(alloc, Vec::from_slice(alloc, failing)?);
    if let Some(stream) = stream {
        place.add("s", &stream_of(alloc, stream)?)?;
    }
    if let Some(text) = priorities {
        place.add("f", text.as_bytes())?;
    }
    if let Some(text) = plan {
        place.add("p", text.as_bytes())?;
    }
    Ok(place)
}

/// The bytes of a stream.
fn stream_of(alloc: Global, (front, part, times): &Stream) -> Result<Vec<u8>, AllocError> {
    let mut bytes = Vec::from_slice(alloc, *front)?;
    for _ in 0..*times {
        bytes.extend_from_slice(*part)?;
    }
    Ok(bytes)
}

/// The first so many packets of the example session in their order, as a datagram file has them.
pub(crate) fn packet_file(alloc: Global, many: usize) -> Result<Vec<u8>, AllocError> {
    let mut bytes = Vec::new(alloc);
    for packet in packets().iter().take(many) {
        bytes.extend_from_slice(packet)?;
    }
    Ok(bytes)
}

/// Whether a file has the first so many packets of the example session, or is not there.
fn has_packets(
    alloc: Global,
    file: Option<&[u8]>,
    many: Option<usize>,
) -> Result<bool, AllocError> {
    match (file, many) {
        (Some(bytes), Some(many)) => Ok(bytes == packet_file(alloc, many)?.as_slice()),
        (None, None) => Ok(true),
        _ => Ok(false),
    }
}

/// Whether the command ends so on the place, prints nothing, and sends the first so many packets of the example session by the
/// link.
fn sends(alloc: Global, case: &Case, place: &mut MemoryPlace) -> Result<bool, NoMemory> {
    let mut link = link_of(alloc, case.1[1])?;
    let mut out = MemorySink::new(alloc, Vec::new(alloc));
    let ended = run_on(alloc, &case.2, place, &mut link, &mut out);
    Ok(ended && out.bytes().is_empty() && are_first(link.sent(), case.4))
}

/// A link to which nothing comes, and whose calls of these numbers fail.
pub(crate) fn link_of(alloc: Global, failing: &[u64]) -> Result<MemoryLink, AllocError> {
    let failing = Vec::from_slice(alloc, failing)?;
    Ok(MemoryLink::new(alloc, Vec::new(alloc), failing))
}

/// Whether these are the first so many packets of the example session, each without the two bytes of its entry.
pub(crate) fn are_first(sent: &[Vec<u8>], many: usize) -> bool {
    let packets = packets();
    sent.len() == many
        && many <= packets.len()
        && sent.iter().zip(&packets).all(|(datagram, entry)| entry.ends_with(datagram)
            && datagram.len() == 89)
}

impl Runs<bool> for Run {
    fn run<P: Place, K: Link, S: Sink, L: Ledger>(
        &self,
        alloc: Global,
        outside: &mut Outside<P, K, S, L>,
    ) -> bool {
        match *self {
            Run::Plan(Ok(text)) => match plan(alloc, "s", "f", outside.place) {
                PlanEnd::Done(bytes) => bytes.as_slice() == text.as_bytes(),
                _ => false,
            },
            Run::Plan(Err(fault)) => plan(alloc, "s", "f", outside.place) == PlanEnd::from(fault),
            Run::Check(end) => check(alloc, "s", "f", "p", outside.place) == end,
            Run::Send(end) => send(alloc, "s", "f", Route::File("d"), outside) == end,
            Run::SendByLink(end) => send(alloc, "s", "f", Route::Udp("x:1"), outside) == end,
        }
    }
}
