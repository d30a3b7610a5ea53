//! `run` on objects in memory that tell each other of a failure.
ghost use Rattle.std.specs.Prelude.{◌≡◌, ◌<◌, IfOk};
ghost use Rattle.pet_base.specs.Feed.{AreShort};

use crate::files::Files;
use pet_base::{
    Link, MAX_ENTRY, MemoryLink, MemoryPlace, MemorySink, NoMemory, Place, Sink, Steps,
};
use pet_text::Status;
use pet_tool::run;
use std::alloc::Global;
use std::marker::Brand;
use std::sync::ledger::{Blank, Ledger};
use test_script::{Quiet, Watch, Watched};

/// The names that files have.
pub(crate) static NAMES: [&str; 26] = [
    "a", "b", "c", "d", "e", "f", "g", "h", "i", "j", "k", "l", "m", "n", "o", "p", "q", "r", "s",
    "t", "u", "v", "w", "x", "y", "z",
];

/// Words, and what they find.
#[derive(Drop)]
pub(crate) struct Run {
    pub(crate) words: Vec<String>,
    pub(crate) files: MemoryPlace,
    /// The datagrams that come by the link.
    pub(crate) feed: Vec<Vec<u8>>,
    /// At which call for a datagram the link is quiet and then goes on, or 0.
    pub(crate) quiet: u32,
    /// Whether an input fails where it ends.
    pub(crate) breaks: bool,
}

/// Which call of the files, of the link and of the output fails, alone or with each behind it.
#[derive(Clone, Copy)]
pub(crate) struct Faults {
    pub(crate) calls: [u64; 3],
    pub(crate) on: bool,
}

/// More calls than there are.
pub(crate) const NEVER: u64 = u64::MAX;

/// No call fails.
pub(crate) const ALL_GO: Faults = Faults {
    calls: [NEVER; 3],
    on: false,
};

impl Faults {
    /// The call of this object from which on each fails.
    fn from(&self, object: usize) -> u64 {
        if self.on {
            *self.calls.get(object).unwrap_or(&NEVER)
        } else {
            NEVER
        }
    }

    /// The call of this object that fails.
    fn calls(&self, alloc: Global, object: usize) -> Result<Vec<u64>, NoMemory> {
        let mut calls = Vec::new(alloc);
        calls.push(*self.calls.get(object).unwrap_or(&NEVER))?;
        Ok(calls)
    }
}

/// A run that has ended, and what it leaves.
#[derive(Drop)]
pub(crate) struct Ended {
    pub(crate) status: Status,
    pub(crate) files: MemoryPlace,
    pub(crate) link: MemoryLink,
    pub(crate) out: MemorySink,
    /// How often the link was asked for a datagram.
    pub(crate) asked: u32,
    /// How many calls came behind the first that failed.
    pub(crate) late: u32,
}

/// The same files, of which these calls fail.
pub(crate) fn copied(
    alloc: Global,
    files: &MemoryPlace,
    faults: &Faults,
) -> Result<MemoryPlace, NoMemory> {
    let mut place = MemoryPlace::new(alloc, faults.calls(alloc, 0)?);
    for name in NAMES {
        if let Some(bytes) = files.bytes_of(name) {
            place.add(name, bytes)?;
        }
    }
    place.failing_from(faults.from(0));
    Ok(place)
}

/// These datagrams, where none is too long.
fn short(alloc: Global, datagrams: &[Vec<u8>]) -> Result<Vec<Vec<u8>>, NoMemory>
    ensures { IfOk result (λ feed. AreShort feed.items) }
{
    let mut feed = Vec::new(alloc);
    for datagram in datagrams {
        if datagram.len() > usize::from(MAX_ENTRY) {
            return Ok(feed);
        }
        feed.push(Vec::from_slice(alloc, datagram)?)?;
    }
    Ok(feed)
}

/// How these words end.
pub(crate) fn end_of(alloc: Global, given: &Run, faults: &Faults) -> Result<Ended, NoMemory> {
    let watch = Watch::new();
    let mut link = MemoryLink::new(alloc, short(alloc, &given.feed)?, faults.calls(alloc, 1)?);
    link.failing_from(faults.from(1));
    let mut out = MemorySink::new(alloc, faults.calls(alloc, 2)?);
    out.failing_from(faults.from(2));
    let mut place = Watched {
        inner: Files {
            inner: copied(alloc, &given.files, faults)?,
            breaks: given.breaks,
        },
        watch: &watch,
    };
    let mut link = Watched {
        inner: Quiet::new(link, given.quiet),
        watch: &watch,
    };
    let mut out = Watched {
        inner: out,
        watch: &watch,
    };
    let status = run_alone(alloc, &given.words, &mut place, &mut link, &mut out);
    Ok(Ended {
        status,
        files: place.inner.inner,
        asked: link.inner.asked,
        link: link.inner.inner,
        out: out.inner,
        late: watch.late(),
    })
}

/// How these words end on these objects.
fn run_alone(
    alloc: Global,
    words: &[String],
    place: &mut Watched<'_, Files>,
    link: &mut Watched<'_, Quiet<MemoryLink>>,
    out: &mut Watched<'_, MemorySink>,
) -> Status {
    run_counted::<Brand>(alloc, words, place, link, out, Blank::new(1))
}

/// The same, on a counter of its own.
fn run_counted<L: Ledger>(
    alloc: Global,
    words: &[String],
    place: &mut impl Place,
    link: &mut impl Link,
    out: &mut impl Sink,
    blank: Blank,
) -> Status
    requires name { blank.name ≡ L.name }
    requires parts { blank.parts ≡ L.parts }
    requires some { 0 < blank.parts }
{
    let mut steps = Steps::<L>::new(blank);
    run(alloc, words, place, link, out, &mut steps)
}
