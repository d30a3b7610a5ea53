//! Objects in memory of which one fails.
ghost use Rattle.pet_base.specs.Feed.{AreShort};

use pet_base::{MemoryLink, MemoryPlace, MemorySink};
use std::alloc::{AllocError, Global};

/// What fails.
#[derive(Clone, Copy, PartialEq, Eq)]
pub enum Object {
    Files,
    Link,
    Output,
}

/// A place of no files, a link to which these datagrams come, and an output, where this call of this object fails, or every one from
/// it on.
pub fn objects_failing(
    alloc: Global,
    feed: Vec<Vec<u8>>,
    fails: (Object, u64, bool),
) -> Result<(MemoryPlace, MemoryLink, MemorySink), AllocError>
    requires { AreShort feed.items }
{
    let (object, call, on) = fails;
    let mut failing = Vec::new(alloc);
    if !on {
        failing.push(call)?;
    }
    let none = Vec::new(alloc);
    let (of_files, of_link, of_output) = match object {
        Object::Files => (failing, none, Vec::new(alloc)),
        Object::Link => (none, failing, Vec::new(alloc)),
        Object::Output => (none, Vec::new(alloc), failing),
    };
    let mut place = MemoryPlace::new(alloc, of_files);
    let mut link = MemoryLink::new(alloc, feed, of_link);
    let mut out = MemorySink::new(alloc, of_output);
    if on {
        match object {
            Object::Files => place.failing_from(call),
            Object::Link => link.failing_from(call),
            Object::Output => out.failing_from(call),
        }
    }
    Ok((place, link, out))
}

/// Whether these bytes are a front of those, or all of them where they must be whole.
pub fn is_front(bytes: &[u8], all: &[u8], whole: bool) -> bool {
    if whole {
        bytes == all
    } else {
        all.get(..bytes.len()) == Some(bytes)
    }
}
