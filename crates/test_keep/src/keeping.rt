//! A run of `keep` over objects in memory.
use crate::fixtures::entries_of;
use pet_base::{MemoryLink, MemoryPlace, MemorySink, NoMemory};
use pet_keep::{KeepStatus, MemoryDisk, keep};
use std::alloc::{AllocError, Global};

/// The words of a run that reads a datagram file, and of one that receives.
pub(crate) const BY_FILE: [&str; 4] = ["file:q", "a5ac9461b03bcf36", "j", "t"];

pub(crate) const BY_LINK: [&str; 4] = ["udp:x:1", "a5ac9461b03bcf36", "j", "t"];

/// What a run finds.
#[derive(Drop)]
pub(crate) struct Given {
    pub(crate) disk: MemoryDisk,
    pub(crate) place: MemoryPlace,
    pub(crate) link: MemoryLink,
    pub(crate) out: MemorySink,
}

/// A run that has ended, and what it leaves.
#[derive(Drop)]
pub(crate) struct Ended {
    pub(crate) status: KeepStatus,
    pub(crate) disk: MemoryDisk,
    pub(crate) place: MemoryPlace,
    pub(crate) out: MemorySink,
}

/// The texts as words.
pub(crate) fn words_of(alloc: Global, texts: &[&str]) -> Result<Vec<String>, AllocError> {
    let mut words = Vec::new(alloc);
    for text in texts {
        words.push(String::from_str(alloc, *text)?)?;
    }
    Ok(words)
}

/// How `keep` ends with these words on what is given.
pub(crate) fn keep_given(alloc: Global, texts: &[&str], given: Given) -> Result<Ended, NoMemory> {
    let words = words_of(alloc, texts)?;
    let Given {
        disk,
        mut place,
        mut link,
        mut out,
    } = given;
    let (status, disk) = keep(alloc, &words, disk, &mut place, &mut link, &mut out);
    Ok(Ended {
        status,
        disk,
        place,
        out,
    })
}

/// How `keep` ends on this disk, from a file of these packets.
pub(crate) fn keep_packets(
    alloc: Global,
    disk: MemoryDisk,
    numbers: &[u8],
) -> Result<Ended, NoMemory> {
    let mut place = MemoryPlace::new(alloc, Vec::new(alloc));
    place.add("q", &entries_of(alloc, numbers)?)?;
    let given = Given {
        disk,
        place,
        link: MemoryLink::new(alloc, Vec::new(alloc), Vec::new(alloc)),
        out: MemorySink::new(alloc, Vec::new(alloc)),
    };
    keep_given(alloc, &BY_FILE, given)
}
