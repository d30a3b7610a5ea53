//! What carries out the transcripts of words, lines and runs.
ghost use Rattle.std.specs.Prelude.{◌<◌, IfSome};

use crate::each::calls_of;
use crate::run::{ALL_GO, Ended, Faults, NAMES, NEVER, Run, copied, end_of};
use crate::texts::{is_kept, is_shown, is_status, is_told};
use arrayvec::ArrayVec;
use pet_base::{MemoryLink, MemoryPlace, MemorySink, NoMemory};
use pet_text::{Status, WordsFault, fault_line, read_words};
use std::alloc::Global;
use test_script::{Desk, Rows, STREAM, words_of};

/// Files, what the next run is given, and how the last one ended.
#[derive(Drop)]
pub(crate) struct Terminal {
    alloc: Global,
    desk: Desk,
    given: Run,
    /// What fails in the next run.
    faults: Faults,
    last: Ended,
    /// Whether the output failed in the last run.
    is_silent: bool,
}

/// The place of an object among the three that a run is given.
fn object_of(name: &str) -> Option<usize>
    ensures { IfSome result (λ object. object < 3) }
{
    match name {
        "place" => Some(0),
        "link" => Some(1),
        "out" => Some(2),
        _ => None,
    }
}

impl Rows for Terminal {
    fn row(&mut self, verb: &str, about: &str) -> Result<bool, NoMemory> {
        match verb {
            "new" => self.begin(),
            "example" => self.begin_example(),
            "hear" => self.hear(about),
            "given" => Ok(self.give(about)),
            "fail" => Ok(self.fail(about)),
            "$" => self.run(about),
            "=" => Ok(self.has_ended(about)),
            "begins" => Ok(self.begins(about)),
            "sent" => self.has_sent(about),
            "asked" => Ok(about.parse() == Ok(self.last.asked)),
            "made" => Ok(self.has_made(about)),
            "back" => self.go_back(),
            "each" => self.fails_each(about),
            "fronts" => self.plans_fronts(about),
            "usage" => self.is_usage(about),
            "?" => is_shown(self.alloc, about),
            "keep" => is_kept(self.alloc, about),
            "status" => Ok(is_status(about)),
            "line" => is_told(self.alloc, about),
            _ => self.desk.row(verb, about),
        }
    }
}

impl Terminal {
    /// No file, and nothing that comes or fails.
    pub(crate) fn new(alloc: Global) -> Terminal {
        Terminal {
            alloc,
            desk: Desk::new(alloc),
            given: Run {
                words: Vec::new(alloc),
                files: MemoryPlace::new(alloc, Vec::new(alloc)),
                feed: Vec::new(alloc),
                quiet: 0,
                breaks: false,
            },
            faults: ALL_GO,
            last: Ended {
                status: Status::Done,
                files: MemoryPlace::new(alloc, Vec::new(alloc)),
                link: MemoryLink::new(alloc, Vec::new(alloc), Vec::new(alloc)),
                out: MemorySink::new(alloc, Vec::new(alloc)),
                asked: 0,
                late: 0,
            },
            is_silent: false,
        }
    }

    /// Begins again, with no file.
    fn begin(&mut self) -> Result<bool, NoMemory> {
        self.given.feed.clear();
        self.given.quiet = 0;
        self.given.breaks = false;
        self.desk.row("new", "")
    }

    /// Begins again, with the example stream as `s`, its priorities as `f`, and an empty file `p`.
    fn begin_example(&mut self) -> Result<bool, NoMemory> {
        Ok(
            self.begin()?
                && self.desk.row("put", "s @stream")?
                && self.desk.row("put", "f @priorities")?
                && self.desk.row("put", "p")?,
        )
    }

    /// The packets of these entries come by the link.
    fn hear(&mut self, about: &str) -> Result<bool, NoMemory> {
        self.given.feed.clear();
        for part in about.split_whitespace() {
            let entry = self.desk.taken(part)?;
            let datagram = entry.get(2..).unwrap_or(&[]);
            self.given
                .feed
                .push(Vec::from_slice(self.alloc, datagram)?)?;
        }
        Ok(true)
    }

    /// From now on the link is quiet at a call for a datagram, as in `quiet 4`, or an input fails where it ends, as in `breaks`.
    fn give(&mut self, about: &str) -> bool {
        let (what, number) = about.split_once(' ').unwrap_or((about, "0"));
        self.given.quiet = number.parse().unwrap_or(0);
        self.given.breaks = what == "breaks";
        self.given.breaks || what == "quiet"
    }

    /// In the next run this call fails, as in `link 3`.
    fn fail(&mut self, about: &str) -> bool {
        let (name, call) = about.split_once(' ').unwrap_or((about, ""));
        let Some(object) = object_of(name) else {
            return false;
        };
        let Ok(call) = call.parse() else {
            return false;
        };
        self.faults.calls[object] = call;
        true
    }

    /// Runs these words.
    fn run(&mut self, about: &str) -> Result<bool, NoMemory> {
        self.given.words = words_of(self.alloc, about)?;
        self.given.files = copied(self.alloc, &self.desk.place, &ALL_GO)?;
        self.last = end_of(self.alloc, &self.given, &self.faults)?;
        self.desk.place = copied(self.alloc, &self.last.files, &ALL_GO)?;
        self.is_silent = self.faults.calls[2] < NEVER;
        self.faults = ALL_GO;
        Ok(true)
    }

    /// Whether what was said was printed, the status has this number, and so many datagrams were sent, as in `0 sent 6`, or none; and
    /// the last line is that of the status, where the output has not failed, and nothing was asked for behind a failure.
    fn has_ended(&mut self, about: &str) -> bool {
        let (code, sent) = about.split_once(" sent ").unwrap_or((about, "0"));
        let mut line: ArrayVec<u8, 64> = ArrayVec::new();
        fault_line(&self.last.status, &mut line);
        let is = self.last.out.bytes() == self.desk.said.as_slice();
        self.desk.said.clear();
        is && (self.is_silent || self.last.out.bytes().ends_with(&line))
            && code.parse() == Ok(self.last.status.code())
            && sent.parse() == Ok(self.last.link.sent().len())
            && self.last.late == 0
    }

    /// Whether the status has this number, and what was printed begins so, as in `0 session`.
    fn begins(&self, about: &str) -> bool {
        let (code, text) = about.split_once(' ').unwrap_or((about, ""));
        code.parse() == Ok(self.last.status.code())
            && self.last.out.bytes().starts_with(text.as_bytes())
    }

    /// Whether the packets of these entries were sent by the link.
    fn has_sent(&mut self, about: &str) -> Result<bool, NoMemory> {
        let mut at = 0usize;
        for part in about.split_whitespace() {
            let entry = self.desk.taken(part)?;
            let frame = entry.get(2..).unwrap_or(&[]);
            if self.last.link.sent().get(at).map(|sent| sent.as_slice()) != Some(frame) {
                return Ok(false);
            }
            at = at.saturating_add(1);
        }
        Ok(at == self.last.link.sent().len())
    }

    /// Whether the last run made or changed the files of these names, and no other.
    fn has_made(&self, about: &str) -> bool {
        NAMES.iter().all(|name| {
            let is_made = self.given.files.bytes_of(*name) != self.desk.place.bytes_of(*name);
            is_made == about.split_whitespace().any(|word| word == *name)
        })
    }

    /// The files are again as they were before the last run.
    fn go_back(&mut self) -> Result<bool, NoMemory> {
        self.desk.place = copied(self.alloc, &self.given.files, &ALL_GO)?;
        Ok(true)
    }

    /// Whether so many calls of an object fail in their turn in runs of the last words, alone and with each behind it, as in `link 7`;
    /// where no number is given, at least one.
    fn fails_each(&mut self, about: &str) -> Result<bool, NoMemory> {
        let (name, number) = about.split_once(' ').unwrap_or((about, ""));
        let Some(object) = object_of(name) else {
            return Ok(false);
        };
        for on in [false, true] {
            let Some(count) = calls_of(self.alloc, &self.given, &self.last, object, on)? else {
                return Ok(false);
            };
            let is_so = if number.is_empty() {
                count > 0
            } else {
                number.parse() == Ok(count)
            };
            if count == 0 || !is_so {
                // no call was made, so none from the first on
                return Ok(is_so);
            }
        }
        Ok(true)
    }

    /// Whether each front of the example stream, of these lengths, is planned.
    fn plans_fronts(&mut self, about: &str) -> Result<bool, NoMemory> {
        let Some((Ok(from), Ok(to))) = about
            .split_once(' ')
            .map(|(from, to)| (from.parse::<usize>(), to.parse::<usize>()))
        else {
            return Ok(false);
        };
        for length in from..to.saturating_add(1) {
            let Some(front) = STREAM.get(..length) else {
                return Ok(false);
            };
            self.desk.place.add("z", front)?;
            if !self.run("plan z f")? || !self.begins("0 session ") {
                return Ok(false);
            }
        }
        Ok(from <= to)
    }

    /// Whether these words have no form, and a run of them tells so.
    fn is_usage(&mut self, about: &str) -> Result<bool, NoMemory> {
        let words = words_of(self.alloc, about)?;
        if read_words(self.alloc, &words).err() != Some(WordsFault::Usage) {
            return Ok(false);
        }
        self.run(about)?;
        self.desk.row(">", "fault usage")?;
        Ok(self.has_ended("1") && self.has_made(""))
    }
}
