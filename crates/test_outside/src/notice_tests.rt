//! What the real ends say of a failure: which file or address, and why.
use crate::buffers::long;
use crate::heard::Heard;
use pet_base::{Link, Place};
use pet_ends::{FilePlace, UdpLink};
use std::alloc::{AllocError, Global};
use std::fs;
use std::test::Fail;

/// A name, and the line of its failure.
type Row = (&'static str, &'static str);

/// Files that cannot be read. The names are escaped as by Rust's `escape_debug`.
static UNREAD: [Row; 5] = [
    (
        "strem",
        "pet: cannot read 'strem': No such file or directory\n",
    ),
    (
        "a\nb\u{1b}[1m'ü'",
        "pet: cannot read 'a\\nb\\u{1b}[1m\\'ü\\'': No such file or directory\n",
    ),
    ("", "pet: cannot read '': No such file or directory\n"),
    (".", "pet: cannot read '.': it is a directory\n"),
    (
        "/dev/null/x",
        "pet: cannot read '/dev/null/x': Not a directory\n",
    ),
];

/// Files that cannot be made.
static UNMADE: [Row; 2] = [
    (".", "pet: cannot write '.': Is a directory\n"),
    (
        "strem/x",
        "pet: cannot write 'strem/x': No such file or directory\n",
    ),
];

/// Addresses at which nothing is received.
static UNBOUND: [Row; 2] = [
    (
        "192.0.2.1:0",
        "pet: cannot receive at '192.0.2.1:0': Cannot assign requested address\n",
    ),
    (
        "127.0.0.1",
        "pet: cannot receive at '127.0.0.1': invalid socket address\n",
    ),
];

/// Addresses to which nothing is sent.
static UNAIMED: [Row; 2] = [
    (
        "127.0.0.1:65536",
        "pet: cannot send to '127.0.0.1:65536': invalid port value\n",
    ),
    (
        "localhost",
        "pet: cannot send to 'localhost': invalid socket address\n",
    ),
];

/// The letters of a long name, and how many of them are shown before three dots.
const LETTERS: usize = 600;

const LETTERS_SHOWN: usize = 509;

/// So many letters.
fn letters(alloc: Global, count: usize) -> Result<String, AllocError> {
    "a".repeat(alloc, count)
}

/// Whether a long name is shown with 512 bytes, of which three are dots.
fn cuts_a_long_name(
    alloc: Global,
    place: &mut FilePlace<'_, HostRuntime, &Heard>,
    heard: &Heard,
) -> Result<bool, Fail> {
    let name = letters(alloc, LETTERS)?;
    let shown = letters(alloc, LETTERS_SHOWN)?;
    let line = format!(in alloc; "pet: cannot read '{shown}...': File name too long\n")?;
    Ok(place.enter(&name).is_err() && heard.is(&line))
}

#[test]
fn it_is_said_why_a_file_cannot_be_opened(rt: HostRuntime) -> Result<(), Fail> {
    let heard = Heard::new(rt.alloc());
    let mut place = FilePlace::new(&rt, &heard);
    let is_read = |row: &Row| place.enter(row.0).is_ok() || !heard.is(row.1);
    assert_eq!(rt; UNREAD.iter().position(is_read), None);
    let is_made = |row: &Row| place.create(row.0).is_ok() || !heard.is(row.1);
    assert_eq!(rt; UNMADE.iter().position(is_made), None);
    assert!(rt; cuts_a_long_name(rt.alloc(), &mut place, &heard)?);
    Ok(())
}

/// A file by two names.
const NAME: &str = "pet_ends_notice_file";

const AGAIN: &str = "./pet_ends_notice_file";

/// Whether a file that is made and read is not made by its other name, and its first name is said.
fn says_the_first_name(place: &mut FilePlace<'_, HostRuntime, &Heard>, heard: &Heard) -> bool {
    let line =
        "pet: cannot write './pet_ends_notice_file': it is the same file as 'pet_ends_notice_file'\n";
    place.create(NAME).is_ok()
        && place.enter(AGAIN).is_ok()
        && heard.is("")
        && place.create(AGAIN).is_err()
        && heard.is(line)
}

#[test]
fn it_is_said_which_file_it_is_by_another_name(rt: HostRuntime) -> Result<(), Fail> {
    let heard = Heard::new(rt.alloc());
    let mut place = FilePlace::new(&rt, &heard);
    assert!(rt; says_the_first_name(&mut place, &heard));
    fs::remove_file(&rt, NAME)?;
    Ok(())
}

/// Whether a device is read once, and it is said that it is not read again.
fn says_it_was_read(place: &mut FilePlace<'_, HostRuntime, &Heard>, heard: &Heard) -> bool {
    place.enter("/dev/null").is_ok()
        && place.enter("/dev/null").is_err()
        && heard.is(
            "pet: cannot read '/dev/null': it is a pipe or a device, and was opened before\n",
        )
}

/// Whether what is written to a full device, or read where nothing can be read, fails with the words of the system.
fn says_what_the_system_says(
    place: &mut FilePlace<'_, HostRuntime, &Heard>,
    heard: &Heard,
) -> bool {
    let mut buffer = [0u8; 4];
    place.create("/dev/full").is_ok()
        && place.put(b"abc").is_err()
        && heard.is("pet: cannot write '/dev/full': No space left on device\n")
        && place.enter("/proc/self/mem").is_ok()
        && place.take(&mut buffer).is_err()
        && heard.is("pet: cannot read '/proc/self/mem': Input/output error\n")
}

#[test]
fn it_is_said_why_a_file_cannot_be_read_or_written(rt: HostRuntime) {
    let heard = Heard::new(rt.alloc());
    let mut place = FilePlace::new(&rt, &heard);
    assert!(rt; says_it_was_read(&mut place, &heard));
    assert!(rt; says_what_the_system_says(&mut place, &heard));
}

/// One byte more than a datagram may have over IPv4.
const TOO_LONG: usize = 65_508;

/// Whether it is said to which address a datagram is too long.
fn says_where_it_sends(
    alloc: Global,
    link: &mut UdpLink<'_, HostRuntime, &Heard>,
    heard: &Heard,
) -> Result<bool, Fail> {
    let too_long = long(alloc, TOO_LONG)?;
    link.aim("127.0.0.1:9")?;
    let sent = link.send(&too_long).is_ok();
    Ok(!sent && heard.is("pet: cannot send to '127.0.0.1:9': Message too long\n"))
}

#[test]
fn it_is_said_why_an_address_cannot_be_used(rt: HostRuntime) -> Result<(), Fail> {
    let heard = Heard::new(rt.alloc());
    let mut link = UdpLink::new(rt.alloc(), &rt, &heard);
    let is_bound = |row: &Row| link.bind(row.0).is_ok() || !heard.is(row.1);
    assert_eq!(rt; UNBOUND.iter().position(is_bound), None);
    let is_aimed = |row: &Row| link.aim(row.0).is_ok() || !heard.is(row.1);
    assert_eq!(rt; UNAIMED.iter().position(is_aimed), None);
    assert!(rt; says_where_it_sends(rt.alloc(), &mut link, &heard)?);
    Ok(())
}
