//! The file of a journal.
ghost use Rattle.std.specs.Prelude.{◌≡◌, None};

use crate::lazy_file::LazyFile;
use outside_disk::Disk;
use pet_base::Failed;
use pet_ends::FaultCount;
use std::rt::Files;

/// A file of the machine, by its name. As a `Disk` it tells nothing but its faults.
///
/// The first call opens the file to be read and written, or makes it where there is none, and then syncs its folder. `sync` is
/// std's `sync_all`, which waits for the file's bytes and for all that the system keeps of it.
#[derive(Drop)]
pub struct FileDisk<'a, R: Files> {
    file: LazyFile<'a, R>,
    faults: FaultCount,
}

impl<'a, R: Files> FileDisk<'a, R> {
    /// The file of this name, which is not opened yet. There was no failure.
    pub fn new(rt: &'a R, name: &'a str) -> FileDisk<'a, R>
        ensures name { result.file.name.now ≡ name.now }
        ensures unopened { result.file.file ≡ None }
        ensures faults { result.faults.count ≡ 0 }
    {
        FileDisk {
            file: LazyFile::new(rt, name),
            faults: FaultCount::new(),
        }
    }
}

impl<R: Files> Disk for FileDisk<'_, R> {
    ghost use Rattle.outside_disk.specs.Disk.{Untold};

    ghost seen = { λ _. Untold };

    ghost faults = { λ d. d.faults.count };

    ghost sound = { λ _. tt };

    fn length(&mut self) -> Result<u64, Failed> {
        let answer = self.file.length();
        self.faults.count(answer)
    }

    fn read_at(&mut self, at: u64, into: &mut [u8]) -> Result<(), Failed> {
        let answer = self.file.read_at(at, into);
        self.faults.count(answer)
    }

    fn write_at(&mut self, at: u64, bytes: &[u8]) -> Result<(), Failed> {
        let answer = self.file.write_at(at, bytes);
        self.faults.count(answer)
    }

    fn cut(&mut self, to: u64) -> Result<(), Failed> {
        let answer = self.file.cut(to);
        self.faults.count(answer)
    }

    fn sync(&mut self) -> Result<(), Failed> {
        let answer = self.file.sync();
        self.faults.count(answer)
    }
}
