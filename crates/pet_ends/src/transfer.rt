//! Reads and writes, tried again where a signal interrupts them.
ghost use Rattle.std.specs.Prelude.{◌≡◌, ℕ, take, OnOk, OnErr};
ghost use Rattle.std.specs.Io.{ReadsAtMost, WritesAtMost};
ghost use Rattle.std.specs.Io.KnownBytes.{ReadConsumes, WriteAppends, Appends};

use std::io;
use std::io::{ErrorKind, Read, Write};

/// Reads once, to the front of the buffer. 0 bytes in a buffer that has room are the end.
pub fn read_some<R: Read>(from: &mut R, into: &mut [u8]) -> io::Result<usize>
    ensures bound { ReadsAtMost result into.new }
    ensures bytes { ReadConsumes (R.remaining from.old) (R.remaining from.new) result into.new }
{
    for _ in 0..u64::MAX {
        match from.read(into) {
            Ok(count) => return Ok(count),
            Err(e) => {
                if e.kind() != ErrorKind::Interrupted {
                    return Err(e);
                }
            }
        }
    }
    Err(ErrorKind::Interrupted.into())
}

/// Writes all bytes, or a front of them before a failure. A write of 0 bytes is a failure.
pub fn write_whole<W: Write>(to: &mut W, bytes: &[u8]) -> io::Result<()>
    ensures ok { OnOk result (Appends (W.contents to.old) (W.contents to.new) bytes.now) }
    ensures err { OnErr result ((k : ℕ) × Appends (W.contents to.old) (W.contents to.new)
        (take k bytes.now)) }
{
    let mut at = 0;
    while at < bytes.len() {
        let count = write_some(to, &bytes[at..])?;
        if count == 0 {
            return Err(io::Error::new(ErrorKind::WriteZero, "nothing more is taken"));
        }
        at += count;
    }
    Ok(())
}

/// Writes once, from the front of the bytes.
fn write_some<W: Write>(to: &mut W, bytes: &[u8]) -> io::Result<usize>
    ensures bound { WritesAtMost result bytes.now }
    ensures bytes { WriteAppends (W.contents to.old) (W.contents to.new) result bytes.now }
{
    for _ in 0..u64::MAX {
        match to.write(bytes) {
            Ok(count) => return Ok(count),
            Err(e) => {
                if e.kind() != ErrorKind::Interrupted {
                    return Err(e);
                }
            }
        }
    }
    Err(ErrorKind::Interrupted.into())
}
