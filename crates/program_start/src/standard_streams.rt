//! The standard streams that the program was started without.
use std::fs;
use std::rt::Files;

/// The device that has no bytes.
const NULL_DEVICE: &str = "/dev/null";

/// Holds the numbers of the standard streams, as long as it is there.
///
/// The system gives a file that is opened the least number that is free. Where a program is started with a standard stream closed,
/// the first file that it opens takes that stream's number, and a line that is printed then stands in the file. Three files
/// that are opened before take whatever is free of the three numbers. They are opened to be read, so what is printed to one is
/// a failure, as to a closed stream.
#[derive(Drop)]
pub struct StandardStreams<F: Drop> {
    input: Option<F>,
    output: Option<F>,
    errors: Option<F>,
}

/// Opens the null device for the standard streams that are closed. Where it cannot be opened, they stay closed.
pub fn hold_streams<R: Files>(machine: &R) -> StandardStreams<R::File> {
    StandardStreams {
        input: fs::open(machine, NULL_DEVICE).ok(),
        output: fs::open(machine, NULL_DEVICE).ok(),
        errors: fs::open(machine, NULL_DEVICE).ok(),
    }
}
