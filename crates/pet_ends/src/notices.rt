//! What the real ends say of a failure to whoever runs the program: a line on standard error. No contract speaks of it.
use std::fmt::{Display, Formatter, InlineText};
use std::{fmt, io};

/// The most bytes that a line shows of a name.
const MOST_SHOWN: usize = 512;

/// A file's name or an address as a line shows it: what is no printed character is escaped, so that it ends no line, and
/// behind the most bytes that are shown it ends in dots.
#[derive(Clone, Copy)]
pub struct ShownName {
    text: InlineText<MOST_SHOWN>,
}

impl ShownName {
    /// A name as it is shown.
    pub fn new(name: &str) -> ShownName {
        ShownName {
            text: InlineText::of(name.escape_debug()),
        }
    }
}

impl Default for ShownName {
    /// No name.
    fn default() -> ShownName {
        ShownName {
            text: InlineText::new(),
        }
    }
}

impl Display for ShownName {
    fn fmt<W: fmt::Write>(&self, f: &mut Formatter<W>) -> fmt::Result {
        f.write_str("'")?;
        f.write_str(self.text.as_str())?;
        f.write_str("'")
    }
}

/// What could not be done with a file or an address.
#[derive(Clone, Copy)]
pub enum Attempt {
    Read,
    Write,
    Receive,
    Send,
}

impl Display for Attempt {
    fn fmt<W: fmt::Write>(&self, f: &mut Formatter<W>) -> fmt::Result {
        f.write_str(match self {
            Attempt::Read => "read",
            Attempt::Write => "write",
            Attempt::Receive => "receive at",
            Attempt::Send => "send to",
        })
    }
}

/// Why it could not be done.
#[derive(Clone, Copy)]
pub enum Why {
    /// The system has refused.
    System(io::Error),
    /// A directory would be read.
    Directory,
    /// What is no regular file would be read again.
    ReadBefore,
    /// The file was opened before, by this name.
    SameAs(ShownName),
    /// No more files are remembered.
    TooMany,
}

impl From<io::Error> for Why {
    fn from(error: io::Error) -> Why {
        Why::System(error)
    }
}

impl Display for Why {
    fn fmt<W: fmt::Write>(&self, f: &mut Formatter<W>) -> fmt::Result {
        match self {
            Why::System(error) => write_words(*error, f),
            Why::Directory => f.write_str("it is a directory"),
            Why::ReadBefore => f.write_str("it is a pipe or a device, and was opened before"),
            Why::SameAs(name) => write!(f, "it is the same file as {name}"),
            Why::TooMany => f.write_str("too many files were opened before"),
        }
    }
}

/// Writes the system's words for an error, without the number that std puts behind them.
fn write_words<W: fmt::Write>(error: io::Error, f: &mut Formatter<W>) -> fmt::Result {
    let text = InlineText::<MOST_SHOWN>::of(error);
    f.write_str(without_number(text.as_str()))
}

/// The front of these words, before the number.
fn without_number(words: &str) -> &str {
    match words.split_once(" (os error ") {
        Some((front, _)) => front,
        None => words,
    }
}

/// Says what could not be done, and why. Where the line cannot be printed, nothing changes.
pub fn tell<E: Eprint>(notices: &E, attempt: Attempt, name: ShownName, why: Why) {
    let _ = eprintln!(notices; "pet: cannot {attempt} {name}: {why}");
}
