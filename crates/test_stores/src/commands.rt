//! Runs of the commands on packets, each on objects in memory of its own.
ghost use Rattle.std.specs.Prelude.{IfOk};
ghost use Rattle.pet_base.specs.Feed.{AreShort};

use crate::objects::{AskedLink, NotedPlace};
use crate::shelf::{Shelf, Told, word};
use arrayvec::ArrayVec;
use command_merge::merge;
use command_receive::receive;
use command_video::video;
use outside_routes::route_at;
use pet_base::{
    Link, MAX_ENTRY, MemoryLink, MemoryPlace, MemorySink, NoMemory, Outside, Place, Sink, Steps,
};
use pet_repair::{relay_loop, repair_loop};
use std::alloc::Global;
use std::cell::Cell;
use std::sync::ledger::Ledger;
use test_script::{Desk, Untold};

impl Shelf {
    /// Runs a command on a place that tells nothing and has the files that the words name, and on a link by which that comes which is
    /// heard. These files are kept, what was sent as a file `sent` of entries, and how often the link was asked, at the end and at
    /// each put.
    pub(crate) fn run<L: Ledger>(&mut self, words: &[String], steps: &mut Steps<L>) -> Told {
        let alloc = self.alloc;
        let asked = Cell::new(0);
        let mut inner = MemoryPlace::new(alloc, self.failing[0].clone()?);
        copy_files(words, &self.desk.place, &mut inner)?;
        let mut place = NotedPlace {
            inner: Untold { inner },
            asked: &asked,
            moments: ArrayVec::new(),
        };
        let feed = feed_of(alloc, &mut self.desk, self.heard.as_str())?;
        let mut link = AskedLink {
            inner: MemoryLink::new(alloc, feed, self.failing[1].clone()?),
            asked: &asked,
        };
        let mut out = MemorySink::new(alloc, self.failing[2].clone()?);
        self.failing = [Vec::new(alloc), Vec::new(alloc), Vec::new(alloc)];
        let session = session_of(&mut self.desk, word(words, 2))?;
        let answer = ended(
            alloc, words, session, &mut place, &mut link, &mut out, steps,
        )?;
        copy_files(words, &place.inner.inner, &mut self.desk.place)?;
        self.printed.extend_from_slice(out.bytes())?;
        self.sent = link.inner.sent().len();
        let sent = entries_of(alloc, link.inner.sent())?;
        self.desk.place.add("sent", &sent)?;
        let moments = place.moments.as_slice();
        self.asked = format!(in alloc; "{} at {moments:?}", asked.get())?;
        Ok(answer)
    }
}

/// Adds the files that the words name, where one place has them, to another.
fn copy_files(words: &[String], from: &MemoryPlace, to: &mut MemoryPlace) -> Result<(), NoMemory> {
    for word in words {
        let name = word.strip_prefix("file:").unwrap_or(word.as_str());
        if let Some(bytes) = from.bytes_of(name) {
            to.add(name, bytes)?;
        }
    }
    Ok(())
}

/// The datagrams of these entries, up to the first that is too long.
fn feed_of(alloc: Global, desk: &mut Desk, entries: &str) -> Result<Vec<Vec<u8>>, NoMemory>
    ensures { IfOk result (λ feed. AreShort feed.items) }
{
    let mut feed = Vec::new(alloc);
    for part in entries.split_whitespace() {
        let entry = desk.taken(part)?;
        let datagram = Vec::from_slice(alloc, entry.get(2..).unwrap_or(&[]))?;
        if datagram.len() > usize::from(MAX_ENTRY) {
            return Ok(feed);
        }
        feed.push(datagram)?;
    }
    Ok(feed)
}

/// The entries of these datagrams, on end.
fn entries_of(alloc: Global, datagrams: &[Vec<u8>]) -> Result<Vec<u8>, NoMemory> {
    let mut entries = Vec::new(alloc);
    for datagram in datagrams {
        entries.extend_from_slice(&((datagram.len() % 65_536) as u16).to_be_bytes())?;
        entries.extend_from_slice(datagram)?;
    }
    Ok(entries)
}

/// The session of this number in 16 digits, or that of number 0.
fn session_of(desk: &mut Desk, digits: &str) -> Result<[u8; 8], NoMemory> {
    let mut session = [0; 8];
    let bytes = desk.taken(digits)?;
    if let Some(front) = bytes.get(..8) {
        session.copy_from_slice(front);
    }
    Ok(session)
}

/// Whether a way is an address, and the address, or the name of a file.
fn way_in(word: &str) -> (bool, &str) {
    match word.strip_prefix("udp:") {
        Some(address) => (true, address),
        None => (false, word.strip_prefix("file:").unwrap_or(word)),
    }
}

/// How the command of these words ends on these objects.
fn ended<P: Place, K: Link, S: Sink, L: Ledger>(
    alloc: Global,
    words: &[String],
    session: [u8; 8],
    place: &mut P,
    link: &mut K,
    out: &mut S,
    steps: &mut Steps<L>,
) -> Told {
    let (first, second, third) = (word(words, 1), word(words, 2), word(words, 3));
    match word(words, 0) {
        "merge" => {
            let end = merge(alloc, first, second, third, place, steps);
            Ok(format!(in alloc; "{end:?}")?)
        }
        "video" => {
            let end = video(alloc, first, second, place, steps);
            Ok(format!(in alloc; "{end:?}")?)
        }
        "receive" => {
            let (is_udp, from) = way_in(first);
            let from = route_at(is_udp, from);
            let mut outside = Outside {
                place,
                link,
                out,
                steps,
            };
            let end = receive(alloc, from, session, third, word(words, 4), &mut outside);
            Ok(format!(in alloc; "{end:?}")?)
        }
        "repair" => {
            let (is_udp, to) = way_in(second);
            let end = repair_loop(alloc, first, to, is_udp, place, link, steps);
            Ok(format!(in alloc; "{end:?}")?)
        }
        "relay" => {
            let ((is_udp, from), (to_udp, to)) = (way_in(first), way_in(third));
            let end = relay_loop(
                alloc, from, is_udp, session, to, to_udp, place, link, out, steps,
            );
            Ok(format!(in alloc; "{end:?}")?)
        }
        _ => Ok(String::from_str(alloc, "wrong")?),
    }
}
