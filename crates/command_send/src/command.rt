//! The commands `send` and `bsend`, and what both stand on: the sending of a session in any format.
ghost use Rattle.std.specs.Prelude.{◌≡◌, ◌≤◌};
ghost use Rattle.pet_base.specs.Lent.{seen, AreSame};
ghost use Rattle.pet_base.specs.Seen.{PlaceStops};
ghost use Rattle.pet_base.specs.LinkSeen.{LinkStops};
ghost use Rattle.command_send.specs.Failures.{end_of_place, end_of_link};
ghost use Rattle.outside_routes.specs.Way.{way_of};
ghost use Rattle.command_send.specs.Sends.{IsOther, Sends, SendsIn};
ghost use Rattle.command_send.specs.SendsBytes.{SendsBytes, SendsByteSession};
ghost use Rattle.command_send.specs.SendsSession.{SendsSession, SendsSessionIn};
ghost use Rattle.stream_session.specs.Tables.{IsSessionFormat};

use crate::sent_group::Change;
use crate::session::{Sent, send_all};
use field_values::AllValues;
use gf8::Gf8Tables;
use mpeg_scan::Scan;
use outside_routes::Route;
use packet_frame::{BYTE_FORMAT, FORMAT, Format};
use pet_base::{Link, Outside, Place, Sink};
use pet_field::Gf16Tables;
use priority_file::PriorityFault;
use std::alloc::Global;
use std::sync::ledger::Ledger;
use stream_session::SessionFault;

/// How `send` or `bsend` ended.
#[derive(Clone, Copy, Debug, PartialEq, Eq)]
pub enum SendEnd {
    /// All packets were sent.
    Done(Sent),
    /// No memory was found.
    NoMemory,
    /// A file could not be read, made or written.
    PlaceFault,
    /// The address of a link cannot be used, or the link could not send.
    LinkFault,
    /// The priority file is refused.
    BadPriority(PriorityFault),
    /// The stream is refused.
    BadStream(Scan),
    /// There is no session of the stream.
    BadPlan(SessionFault),
    /// The stream was another when it was read again: the least group whose marks differ.
    Changed(Change),
}

/// Sends the packets of the session that STREAM and PRIORITY are to the datagram file TO, or by the link to the address TO, each
/// packet once, by group, then number, and answers how many they are. STREAM is read twice, and TO, which is another file where it
/// is one, is made, or the link aimed, before it is read again. The first failure of a file or of the link ends it.
#[tactic(auto, using(stream_session::specs::laws::FormatLaws::today_is))]
pub fn send<P: Place, K: Link, S: Sink, L: Ledger>(
    alloc: Global,
    stream: &str,
    priority: &str,
    to: Route<'_>,
    outside: &mut Outside<P, K, S, L>,
) -> SendEnd
    requires differ { IsOther (way_of to) stream.now }
    ensures sends { Sends stream.now priority.now (way_of to.entry) (seen outside.old)
        (seen outside.new) result }
    ensures completes { SendsSession stream.now priority.now (way_of to.entry) (seen outside.old)
        (seen outside.new) result }
    ensures once_place { PlaceStops (end_of_place result) (seen outside.old).place
        (seen outside.new).place }
    ensures once_link { LinkStops (end_of_link result) (seen outside.old).link
        (seen outside.new).link }
    ensures same { AreSame outside.old outside.new }
{
    match Gf16Tables::new(alloc) {
        Ok(field) => send_by(alloc, &field, FORMAT, stream, priority, to, outside),
        Err(_) => SendEnd::NoMemory,
    }
}

/// The same in a format whose words are elements of the field, which has a point for each packet that the format allows.
pub fn send_by<P: Place, K: Link, S: Sink, L: Ledger, F: AllValues>(
    alloc: Global,
    field: &F,
    format: Format,
    stream: &str,
    priority: &str,
    to: Route<'_>,
    outside: &mut Outside<P, K, S, L>,
) -> SendEnd
    requires differ { IsOther (way_of to) stream.now }
    requires format { IsSessionFormat format }
    requires word { format.word ≡ F.coding.width }
    requires points { format.bounds.packets ≤ F.COUNT }
    ensures sends { SendsIn format F.coding stream.now priority.now (way_of to.entry) (seen outside.old)
        (seen outside.new) result }
    ensures completes { SendsSessionIn format F.coding stream.now priority.now (way_of to.entry)
        (seen outside.old) (seen outside.new) result }
    ensures once_place { PlaceStops (end_of_place result) (seen outside.old).place
        (seen outside.new).place }
    ensures once_link { LinkStops (end_of_link result) (seen outside.old).link
        (seen outside.new).link }
    ensures same { AreSame outside.old outside.new }
{
    match send_all(alloc, field, format, stream, priority, to, outside) {
        Ok(sent) => SendEnd::Done(sent),
        Err(fault) => fault.end(),
    }
}

/// The same of the byte profile: a byte of the layers is a word, and each packet has one byte for each stripe. A priority of more than
/// 255 packets, and a group whose layers have more than 2,097,152 bytes, are refused too.
#[tactic(auto, using(stream_session::specs::laws::FormatLaws::bytewise_is))]
pub fn bsend<P: Place, K: Link, S: Sink, L: Ledger>(
    alloc: Global,
    stream: &str,
    priority: &str,
    to: Route<'_>,
    outside: &mut Outside<P, K, S, L>,
) -> SendEnd
    requires differ { IsOther (way_of to) stream.now }
    ensures sends { SendsBytes stream.now priority.now (way_of to.entry) (seen outside.old)
        (seen outside.new) result }
    ensures completes { SendsByteSession stream.now priority.now (way_of to.entry) (seen outside.old)
        (seen outside.new) result }
    ensures once_place { PlaceStops (end_of_place result) (seen outside.old).place
        (seen outside.new).place }
    ensures once_link { LinkStops (end_of_link result) (seen outside.old).link
        (seen outside.new).link }
    ensures same { AreSame outside.old outside.new }
{
    let field = Gf8Tables::new();
    send_by(alloc, &field, BYTE_FORMAT, stream, priority, to, outside)
}
