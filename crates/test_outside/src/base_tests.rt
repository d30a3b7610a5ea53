//! Each public call once, and the entries of a datagram file, whole and cut.
ghost use Rattle.std.specs.Prelude.{◌≡◌, ◌<◌, ◌≤◌, ◌+◌, length, IfOk, OnOk, true};
ghost use Rattle.pet_base.specs.declared.limits.TheConstants.{MAX_ENTRY};
ghost use Rattle.std.specs.Io.KnownBytes.{append_known};
ghost use Rattle.pet_base.specs.Lent.{seen, AreSame};
ghost use Rattle.pet_base.specs.PlaceMemory.{seen_of};

use crate::room;
use pet_base::{
    Entry, Failed, Got, Link, MemoryLink, MemoryPlace, MemorySink, NoMemory, Outside, Place, Sink,
    Steps, next_entry,
};
use std::alloc::{AllocError, Global};
use std::marker::Brand;
use std::sync::ledger::{Blank, Ledger};

/// A place whose input has these bytes.
fn input(alloc: Global, bytes: &[u8]) -> Result<MemoryPlace, NoMemory>
    ensures { IfOk result (λ place. (seen_of place).has_input ≡ true) }
{
    let mut place = MemoryPlace::new(alloc, Vec::new(alloc));
    place.add("in", bytes)?;
    match place.enter("in") {
        Ok(()) => Ok(place),
        Err(Failed) => Err(NoMemory),
    }
}

/// Counts two steps.
fn count_two<L: Ledger>(blank: Blank)
    requires name { blank.name ≡ L.name }
    requires parts { blank.parts ≡ L.parts }
    requires some { 0 < blank.parts }
{
    let mut steps = Steps::<L>::new(blank);
    steps.tick();
    steps.tick();
}

#[test]
fn steps_are_counted() {
    count_two::<Brand>(Blank::new(1));
}

/// Opens a file, counts a step and prints the file's name.
fn greet<P: Place, K: Link, S: Sink, L: Ledger>(
    name: &str,
    outside: &mut Outside<P, K, S, L>,
) -> Result<(), Failed>
    ensures steps { OnOk result ((seen outside.new).steps ≡ (seen outside.old).steps + 1) }
    ensures printed { OnOk result ((seen outside.new).written ≡ append_known (seen outside.old).written name.now) }
    ensures same { AreSame outside.old outside.new }
{
    outside.place.enter(name)?;
    outside.steps.tick();
    outside.out.put(name.as_bytes())
}

/// Lends these objects, and says whether the name was printed to the last.
fn greets<L: Ledger>(
    place: &mut MemoryPlace,
    link: &mut MemoryLink,
    steps: &mut Steps<L>,
    out: &mut MemorySink,
) -> bool {
    let mut outside = Outside {
        place,
        link,
        out,
        steps,
    };
    greet("in", &mut outside).is_ok()
}

/// Whether the name is printed where objects in memory are lent.
fn lend<L: Ledger>(alloc: Global, blank: Blank) -> Result<bool, NoMemory>
    requires name { blank.name ≡ L.name }
    requires parts { blank.parts ≡ L.parts }
    requires some { 0 < blank.parts }
{
    let mut place = input(alloc, b"abc")?;
    let mut link = MemoryLink::new(alloc, Vec::new(alloc), Vec::new(alloc));
    let mut out = MemorySink::new(alloc, Vec::new(alloc));
    let mut steps = Steps::<L>::new(blank);
    Ok(greets(&mut place, &mut link, &mut steps, &mut out) && out.bytes() == b"in".as_slice())
}

#[test]
fn the_outside_is_lent_as_one_value(rt: HostRuntime) {
    assert!(rt; lend::<Brand>(rt.alloc(), Blank::new(1)).unwrap_or(false));
}

/// Datagram files, and their first three entries.
type Entries = (&'static [u8], [Entry; 3]);

static ENTRIES: [Entries; 5] = [
    (
        &[0, 2, 7, 8, 0, 0],
        [Entry::Datagram(2), Entry::Datagram(0), Entry::End],
    ),
    (
        &[0, 1, 9, 5],
        [Entry::Datagram(1), Entry::Datagram(0), Entry::End],
    ),
    (&[0, 3, 1, 2], [Entry::Datagram(0), Entry::End, Entry::End]),
    (&[0], [Entry::Datagram(0), Entry::End, Entry::End]),
    (&[], [Entry::End, Entry::End, Entry::End]),
];

/// Whether these are the first entries of the place.
fn begins(place: &mut MemoryPlace, room: &mut [u8], entries: [Entry; 3]) -> bool
    requires input { (seen_of place.old).has_input ≡ true }
    requires room { MAX_ENTRY ≤ length room.old }
{
    let [first, second, third] = entries;
    next_entry(place, room) == Ok(first)
        && next_entry(place, room) == Ok(second)
        && next_entry(place, room) == Ok(third)
}

/// The number of the first row that has other entries.
fn first_wrong(alloc: Global, rows: &[Entries]) -> Result<Option<usize>, NoMemory> {
    let mut room = room(alloc)?;
    for row in 0..rows.len() {
        let mut place = input(alloc, rows[row].0)?;
        if !begins(&mut place, &mut room, rows[row].1) {
            return Ok(Some(row));
        }
    }
    Ok(None)
}

#[test]
fn entries_are_read_whole_and_cut(rt: HostRuntime) {
    assert!(rt; first_wrong(rt.alloc(), &ENTRIES) == Ok(None));
}

/// A place with a file `in`, whose calls of these numbers fail.
fn place_of(alloc: Global, failing: &[u64]) -> Result<MemoryPlace, NoMemory> {
    let mut place = MemoryPlace::new(alloc, Vec::from_slice(alloc, failing)?);
    place.add("in", b"abc")?;
    Ok(place)
}

/// Whether the fourth of these calls fails, and no other.
fn fails_at_the_fourth(place: &mut MemoryPlace) -> bool {
    let mut buffer = [0u8; 2];
    place.enter("in").is_ok()
        && place.create("out").is_ok()
        && place.put(b"xy").is_ok()
        && place.put(b"z").is_err()
        && place.take(&mut buffer) == Ok(2)
        && buffer == *b"ab"
}

#[test]
fn a_place_fails_at_the_listed_call(rt: HostRuntime) {
    let mut place = place_of(rt.alloc(), &[3]).expect(&rt, "memory");
    assert!(rt; fails_at_the_fourth(&mut place));
    assert!(rt; place.bytes_of("out") == Some(b"xy".as_slice()));
    assert!(rt; place.bytes_of("other").is_none());
}

/// A link with one datagram to come, whose calls of these numbers fail.
fn link_of(alloc: Global, failing: &[u64]) -> Result<MemoryLink, AllocError> {
    let feed = vec![in alloc; Vec::from_slice(alloc, b"xyz")?]?;
    Ok(MemoryLink::new(alloc, feed, Vec::from_slice(alloc, failing)?))
}

/// Whether the fourth of these calls fails, and no other.
fn is_refused_at_the_fourth(link: &mut MemoryLink, room: &mut [u8]) -> bool
    requires { MAX_ENTRY ≤ length room.old }
{
    link.bind("here") == Ok(40_000)
        && link.aim("there").is_ok()
        && link.send(b"ab").is_ok()
        && link.send(b"c").is_err()
        && link.next(room) == Ok(Got::Datagram(3))
        && link.next(room) == Ok(Got::Quiet)
}

#[test]
fn a_link_fails_at_the_listed_call(rt: HostRuntime) {
    let mut link = link_of(rt.alloc(), &[3]).expect(&rt, "memory");
    let mut buffer = room(rt.alloc()).expect(&rt, "memory");
    assert!(rt; is_refused_at_the_fourth(&mut link, &mut buffer));
    assert!(rt; matches!(link.sent(), [datagram] if datagram.as_slice() == b"ab".as_slice()));
}

#[test]
fn a_sink_fails_at_the_listed_call(rt: HostRuntime) {
    let failing = Vec::from_slice(rt.alloc(), &[1]).expect(&rt, "memory");
    let mut sink = MemorySink::new(rt.alloc(), failing);
    assert!(rt; sink.put(b"ab").is_ok() && sink.put(b"c").is_err());
    assert!(rt; sink.bytes() == b"ab".as_slice());
}

#[test]
fn a_sink_fails_from_the_first_of_two_numbers_on(rt: HostRuntime) {
    let mut sink = MemorySink::new(rt.alloc(), Vec::new(rt.alloc()));
    sink.failing_from(1);
    sink.failing_from(2);
    assert!(rt; sink.put(b"ab").is_ok() && sink.put(b"c").is_err() && sink.put(b"d").is_err());
    assert!(rt; sink.bytes() == b"ab".as_slice());
}
