//! The files of the machine that a run has opened, and how it opens one more.
use crate::notices::{ShownName, Why};
use arrayvec::ArrayVec;
use std::fs;
use std::fs::{Metadata, OpenFile, OpenOptions};
use std::os::unix::fs::MetadataExt;
use std::rt::Files;

/// The most files that are remembered. A command names three at most.
const MOST_FILES: usize = 16;

/// A file, whatever its names: the number of its device, and its own there.
#[derive(Clone, Copy, Default, PartialEq, Eq)]
struct FileNumber {
    device: u64,
    number: u64,
}

/// The number of a file.
fn number_of(file: &Metadata) -> FileNumber {
    FileNumber {
        device: file.dev(),
        number: file.ino(),
    }
}

/// A file that was opened, and the name by which it was opened first.
#[derive(Clone, Copy, Default)]
struct MetFile {
    number: FileNumber,
    name: ShownName,
}

/// The files that were opened. One more than `MOST_FILES` is refused.
#[derive(Drop)]
pub struct MetFiles {
    files: ArrayVec<MetFile, MOST_FILES>,
}

impl MetFiles {
    /// No file.
    pub fn new() -> MetFiles {
        MetFiles {
            files: ArrayVec::new(),
        }
    }

    /// Opens a file to be read. A directory is refused, and so is what is no regular file and was opened before: of a pipe
    /// nothing is left, or it is waited for without end.
    pub fn open<R: Files>(&mut self, rt: &R, name: &str) -> Result<R::File, Why> {
        if self.has_given(rt, name) {
            return Err(Why::ReadBefore);
        }
        let file = fs::open(rt, name)?;
        let about = file.metadata()?;
        if about.is_dir() {
            return Err(Why::Directory);
        }
        self.remember(&about, name)?;
        Ok(file)
    }

    /// Opens a file to be written, and empties it. One that was opened before, by whatever name, is refused and not changed.
    pub fn make<R: Files>(&mut self, rt: &R, name: &str) -> Result<R::File, Why> {
        let file = OpenOptions::new().write(true).create(true).open(rt, name)?;
        let about = file.metadata()?;
        if about.is_file() {
            if let Some(first) = self.first_name(&about) {
                return Err(Why::SameAs(first));
            }
            self.remember(&about, name)?;
            file.set_len(0)?;
        }
        Ok(file)
    }

    /// Whether this name is one of a file that is no regular one, and was opened before. It is asked before the file is opened,
    /// since that waits at a pipe.
    fn has_given<R: Files>(&self, rt: &R, name: &str) -> bool {
        match fs::metadata(rt, name) {
            Ok(about) => !about.is_file() && self.first_name(&about).is_some(),
            Err(_) => false,
        }
    }

    /// The name by which the file was opened first, where it was opened before.
    fn first_name(&self, about: &Metadata) -> Option<ShownName> {
        let number = number_of(about);
        let met = self.files.iter().find(|met| met.number == number)?;
        Some(met.name)
    }

    /// Remembers the file, and this name where it is its first.
    fn remember(&mut self, about: &Metadata, name: &str) -> Result<(), Why> {
        if self.first_name(about).is_some() {
            return Ok(());
        }
        let met = MetFile {
            number: number_of(about),
            name: ShownName::new(name),
        };
        self.files.try_push(met).map_err(|_| Why::TooMany)
    }
}
