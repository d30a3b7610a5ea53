//! A file of the machine that is opened, or made, where it is first used.
ghost use Rattle.std.specs.Prelude.{◌≡◌, None};

use std::fs::{self, OpenFile, OpenOptions};
use std::io::{self, ErrorKind, Read, Seek, SeekFrom, Write};
use std::rt::Files;

/// A file of this name, which is opened by the first call.
#[derive(Drop)]
pub struct LazyFile<'a, R: Files> {
    rt: &'a R,
    name: &'a str,
    file: Option<R::File>,
}

impl<'a, R: Files> LazyFile<'a, R> {
    /// The file is not opened yet.
    pub fn new(rt: &'a R, name: &'a str) -> LazyFile<'a, R>
        ensures name { result.name.now ≡ name.now }
        ensures unopened { result.file ≡ None }
    {
        LazyFile {
            rt,
            name,
            file: None,
        }
    }

    /// The number of bytes.
    pub fn length(&mut self) -> io::Result<u64> {
        Ok(self.open()?.metadata()?.len())
    }

    /// Fills the buffer with the bytes from a place on. A file that has fewer is a failure.
    pub fn read_at(&mut self, at: u64, into: &mut [u8]) -> io::Result<()> {
        let file = self.open()?;
        file.seek(SeekFrom::Start(at))?;
        file.read_exact(into)
    }

    /// Writes all bytes at a place.
    pub fn write_at(&mut self, at: u64, bytes: &[u8]) -> io::Result<()> {
        let file = self.open()?;
        file.seek(SeekFrom::Start(at))?;
        file.write_all(bytes)
    }

    /// Cuts the file to a length.
    pub fn cut(&mut self, to: u64) -> io::Result<()> {
        self.open()?.set_len(to)
    }

    /// Waits until the system says that the disk has the file, its length among it.
    pub fn sync(&mut self) -> io::Result<()> {
        self.open()?.sync_all()
    }

    /// The open file.
    fn open(&mut self) -> io::Result<&mut R::File> {
        if self.file.is_none() {
            self.file = Some(open_or_make(self.rt, self.name)?);
        }
        match &mut self.file {
            Some(file) => Ok(file),
            None => Err(io::Error::from(ErrorKind::NotFound)),
        }
    }
}

/// Opens a file to be read and written. Where there is none it is made, and its folder is synced, so that a crash does not take
/// its name.
fn open_or_make<R: Files>(rt: &R, name: &str) -> io::Result<R::File> {
    match OpenOptions::new().read(true).write(true).open(rt, name) {
        Err(e) if e.kind() == ErrorKind::NotFound => make(rt, name),
        opened => opened,
    }
}

/// Makes a file, and syncs its folder.
fn make<R: Files>(rt: &R, name: &str) -> io::Result<R::File> {
    let file = OpenOptions::new()
        .read(true)
        .write(true)
        .create(true)
        .open(rt, name)?;
    fs::open(rt, folder_of(name))?.sync_all()?;
    Ok(file)
}

/// The folder that a name stands in.
fn folder_of(name: &str) -> &str {
    match name.rsplit_once('/') {
        Some(("", _)) => "/",
        Some((folder, _)) => folder,
        None => ".",
    }
}
