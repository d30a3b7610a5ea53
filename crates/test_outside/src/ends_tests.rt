//! A real file, and a writer that takes little at a time and gives out in the middle.
ghost use Rattle.pet_ends.specs.laws.SteadyLaws.{never_told};

use pet_base::{Failed, Place, Sink};
use pet_ends::{FilePlace, Printer, StandardOut};
use std::io::{ErrorKind, Stderr, Write};
use std::test::Fail;
use std::{fs, io};

/// It is interrupted once, then takes a byte at a time as long as it has room, and then none.
#[derive(Drop)]
struct Narrow {
    interrupted: bool,
    room: usize,
}

impl Write for Narrow {
    fn write(&mut self, buf: &[u8]) -> io::Result<usize> {
        if !self.interrupted {
            self.interrupted = true;
            return Err(ErrorKind::Interrupted.into());
        }
        if self.room == 0 || buf.is_empty() {
            return Ok(0);
        }
        self.room -= 1;
        Ok(1)
    }

    fn flush(&mut self) -> io::Result<()> {
        Ok(())
    }
}

impl Printer for Narrow {
    ghost steady = { never_told };
}

#[test]
fn a_text_is_printed_whole_or_fails(rt: HostRuntime) {
    for (room, printed) in [(3, Ok(())), (2, Err(Failed)), (0, Err(Failed))] {
        let mut out = StandardOut::new(Narrow {
            interrupted: false,
            room,
        });
        assert_eq!(rt; out.put(b"abc"), printed, "room {room}");
    }
}

#[test]
fn a_vector_gives_back_what_was_printed(rt: HostRuntime) {
    let mut out = StandardOut::new(Vec::new(rt.alloc()));
    assert_eq!(rt; out.put(b"ab"), Ok(()));
    assert_eq!(rt; out.put(b"c"), Ok(()));
    assert_eq!(rt; out.into_writer().as_slice(), b"abc".as_slice());
}

/// Whether a file that is not there is made and written.
fn is_written(place: &mut FilePlace<'_, HostRuntime, Stderr>, name: &str) -> bool {
    place.enter(name).is_err() && place.create(name).is_ok() && place.put(b"abc").is_ok()
}

/// Whether what was written is read, and no more.
fn is_read(place: &mut FilePlace<'_, HostRuntime, Stderr>, name: &str) -> bool {
    let mut buffer = [0u8; 4];
    place.enter(name).is_ok()
        && place.take(&mut buffer) == Ok(3)
        && buffer == *b"abc\0"
        && place.take(&mut buffer) == Ok(0)
}

#[test]
fn a_file_is_written_and_read(rt: HostRuntime) -> Result<(), Fail> {
    let name = "pet_ends_test_file";
    let mut place = FilePlace::new(&rt, rt.stderr());
    assert!(rt; is_written(&mut place, name));
    assert!(rt; is_read(&mut place, name));
    fs::remove_file(&rt, name)?;
    Ok(())
}
