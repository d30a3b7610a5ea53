//! What carries out the transcripts of stores and of packets.
ghost use Rattle.std.specs.Prelude.{◌≡◌, ◌<◌};

use pet_base::{NoMemory, Steps};
use std::alloc::Global;
use std::marker::Brand;
use std::sync::ledger::{Blank, Ledger};
use test_script::{Desk, Rows};

/// What a call answers, by its `{:?}`; or `wrong`, where its row is.
pub(crate) type Told = Result<String, NoMemory>;

/// Files; the entries that come by a link; the calls of the place, the link and the output that are to fail; and what was last
/// answered, printed, sent, and asked of the link.
#[derive(Drop)]
pub(crate) struct Shelf {
    pub(crate) alloc: Global,
    pub(crate) desk: Desk,
    pub(crate) heard: String,
    pub(crate) failing: [Vec<u64>; 3],
    answer: String,
    pub(crate) printed: Vec<u8>,
    pub(crate) sent: usize,
    pub(crate) asked: String,
}

impl Rows for Shelf {
    fn row(&mut self, verb: &str, about: &str) -> Result<bool, NoMemory> {
        match verb {
            "$" => {
                let words = words_in(self.alloc, about)?;
                Ok(call(self, &words))
            }
            "=" => Ok(self.has_answered(about)),
            "asked" => Ok(self.asked.as_str() == about),
            "hear" => {
                self.heard = String::from_str(self.alloc, about)?;
                Ok(true)
            }
            "fail" => self.fail(about),
            _ => self.desk.row(verb, about),
        }
    }
}

/// Makes the call of these words, on a counter of its own.
fn call(shelf: &mut Shelf, words: &[String]) -> bool {
    call_counted::<Brand>(shelf, words, Blank::new(1))
}

/// The same, on this counter.
fn call_counted<L: Ledger>(shelf: &mut Shelf, words: &[String], blank: Blank) -> bool
    requires name { blank.name ≡ L.name }
    requires parts { blank.parts ≡ L.parts }
    requires some { 0 < blank.parts }
{
    let mut steps = Steps::<L>::new(blank);
    shelf.printed.clear();
    shelf.sent = 0;
    let Ok(answer) = shelf.call(words, &mut steps) else {
        return false;
    };
    shelf.answer = answer;
    shelf.answer.as_str() != "wrong"
}

impl Shelf {
    /// No file, and no call that fails.
    pub(crate) fn new(alloc: Global) -> Shelf {
        Shelf {
            alloc,
            desk: Desk::new(alloc),
            heard: String::new(alloc),
            failing: [Vec::new(alloc), Vec::new(alloc), Vec::new(alloc)],
            answer: String::new(alloc),
            printed: Vec::new(alloc),
            sent: 0,
            asked: String::new(alloc),
        }
    }

    /// In the next run this call fails, as in `fail place 3`.
    fn fail(&mut self, about: &str) -> Result<bool, NoMemory> {
        let (end, call) = about.split_once(' ').unwrap_or((about, ""));
        let Ok(call) = call.parse() else {
            return Ok(false);
        };
        match end {
            "place" => self.failing[0].push(call)?,
            "link" => self.failing[1].push(call)?,
            "out" => self.failing[2].push(call)?,
            _ => return Ok(false),
        }
        Ok(true)
    }

    /// Whether this was answered, what was said was printed, and so many datagrams were sent, as in `ANSWER sent 6`, or none.
    fn has_answered(&mut self, about: &str) -> bool {
        let (answer, sent) = about.split_once(" sent ").unwrap_or((about, "0"));
        let is = self.answer.as_str() == answer
            && self.printed == self.desk.said
            && sent.parse() == Ok(self.sent);
        self.desk.said.clear();
        is
    }
}

/// The words of a row.
fn words_in(alloc: Global, about: &str) -> Result<Vec<String>, NoMemory> {
    let mut words = Vec::new(alloc);
    for word in about.split_whitespace() {
        words.push(String::from_str(alloc, word)?)?;
    }
    Ok(words)
}

/// The word at this place, or none.
pub(crate) fn word(words: &[String], at: usize) -> &str {
    words.get(at).map_or("", |word| word.as_str())
}

/// The number at this place, or 0.
pub(crate) fn number(words: &[String], at: usize) -> u64 {
    word(words, at).parse().unwrap_or(0)
}
