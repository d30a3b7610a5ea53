//! Real files by several names, a directory, and what is no regular file.
use pet_base::Place;
use pet_ends::FilePlace;
use std::io::{Stderr, Write};
use std::os::fd::AsRawFd;
use std::os::unix::fs::symlink;
use std::test::Fail;
use std::{fs, io};

/// A folder for the files of these tests, which is deleted at their end.
const FOLDER: &str = "pet_ends_test_folder";

/// A file of the folder, and its other names.
const NAMES: [&str; 4] = [
    "pet_ends_test_folder/a",
    "./pet_ends_test_folder/a",
    "pet_ends_test_folder/hard",
    "pet_ends_test_folder/soft",
];

/// A file that is not there yet, by two names.
const NEW: &str = "pet_ends_test_folder/b";

const NEW_AGAIN: &str = "pet_ends_test_folder/./b";

/// Makes the folder, and in it a file with its names.
fn make_names(rt: &HostRuntime) -> io::Result<()> {
    fs::create_dir(rt, FOLDER)?;
    fs::write(rt, NAMES[0], "abc")?;
    fs::hard_link(rt, NAMES[0], NAMES[2])?;
    symlink(rt, "a", NAMES[3])
}

/// Whether a file that is entered, also twice, is made by none of its names.
fn keeps_what_it_has_entered(place: &mut FilePlace<'_, HostRuntime, Stderr>) -> bool {
    if place.enter(NAMES[0]).is_err() || place.enter(NAMES[2]).is_err() {
        return false;
    }
    for name in NAMES {
        if place.create(name).is_ok() {
            return false;
        }
    }
    true
}

/// Whether a file that is made is not made again by another name.
fn keeps_what_it_has_made(place: &mut FilePlace<'_, HostRuntime, Stderr>) -> bool {
    place.create(NEW).is_ok() && place.put(b"xy").is_ok() && place.create(NEW_AGAIN).is_err()
}

#[test]
fn a_file_is_not_made_by_another_name(rt: HostRuntime) -> Result<(), Fail> {
    make_names(&rt)?;
    let mut place = FilePlace::new(&rt, rt.stderr());
    assert!(rt; keeps_what_it_has_entered(&mut place));
    assert!(rt; keeps_what_it_has_made(&mut place));
    assert!(rt; place.enter(FOLDER).is_err());
    assert!(rt; fs::read(&rt, NAMES[0])?.as_slice() == b"abc".as_slice());
    assert!(rt; fs::read(&rt, NEW)?.as_slice() == b"xy".as_slice());
    assert!(rt; FilePlace::new(&rt, rt.stderr()).create(NAMES[3]).is_ok());
    assert!(rt; fs::read(&rt, NAMES[0])?.is_empty());
    fs::remove_dir_all(&rt, FOLDER)?;
    Ok(())
}

/// Whether a pipe that holds these three bytes is read, and then refused.
fn is_read_once(place: &mut FilePlace<'_, HostRuntime, Stderr>, name: &str) -> bool {
    let mut buffer = [0u8; 4];
    place.enter(name).is_ok()
        && place.take(&mut buffer) == Ok(3)
        && buffer == *b"abc\0"
        && place.enter(name).is_err()
}

#[test]
fn a_pipe_is_entered_once(rt: HostRuntime) -> Result<(), Fail> {
    let mut place = FilePlace::new(&rt, rt.stderr());
    for _ in 0..2 {
        let (reader, mut writer) = io::pipe(&rt)?;
        writer.write_all(b"abc")?;
        drop(writer);
        let name = format!(in rt.alloc(); "/dev/fd/{}", reader.as_raw_fd())?;
        assert!(rt; is_read_once(&mut place, &name));
    }
    Ok(())
}

/// Whether what is no regular file is made, and made again.
fn is_made_twice(place: &mut FilePlace<'_, HostRuntime, Stderr>, name: &str) -> bool {
    place.create(name).is_ok() && place.put(b"abc").is_ok() && place.create(name).is_ok()
}

#[test]
fn a_device_is_written_again(rt: HostRuntime) {
    assert!(rt; is_made_twice(&mut FilePlace::new(&rt, rt.stderr()), "/dev/null"));
}
