//! `keep` asks a link for nothing more once it was quiet.
use crate::fixtures::{datagrams, disk_of};
use crate::keeping::{BY_LINK, words_of};
use pet_base::{MemoryLink, MemoryPlace, MemorySink, NoMemory};
use pet_keep::{KeepStatus, keep};
use std::alloc::Global;
use test_script::Quiet;

/// The call for a datagram at which the link is quiet, behind two packets, before it goes on.
const QUIET: u32 = 3;

/// How a run ends whose link is quiet behind the first packets, and how often the link was asked.
fn keep_quiet(alloc: Global) -> Result<(KeepStatus, u32), NoMemory> {
    let words = words_of(alloc, &BY_LINK)?;
    let link = MemoryLink::new(alloc, datagrams(alloc)?, Vec::new(alloc));
    let mut link = Quiet::new(link, QUIET);
    let mut place = MemoryPlace::new(alloc, Vec::new(alloc));
    let mut out = MemorySink::new(alloc, Vec::new(alloc));
    let disk = disk_of(alloc, &[], None)?;
    let (status, _) = keep(alloc, &words, disk, &mut place, &mut link, &mut out);
    Ok((status, link.asked))
}

#[test]
fn asks_a_link_for_nothing_once_it_was_quiet(rt: HostRuntime) -> Result<(), NoMemory> {
    assert!(rt; keep_quiet(rt.alloc())? == (KeepStatus::Incomplete, QUIET));
    Ok(())
}
