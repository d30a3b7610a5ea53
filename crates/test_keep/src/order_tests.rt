//! Each packet stands in the journal, and is synced, before the next datagram is taken: the link and the disk share a watch.
use crate::fixtures::{datagrams, disk_of};
use crate::keeping::{BY_LINK, words_of};
use pet_base::{Failed, Got, Link, MemoryLink, MemoryPlace, MemorySink, NoMemory};
use pet_keep::{Disk, KeepStatus, MemoryDisk, keep};
use std::alloc::Global;
use std::cell::Cell;

/// What the link and the disk of a run share: how often the disk was synced, how many datagrams were asked for, and how often there
/// were other syncs before that than two to begin the journal and two for each datagram.
#[derive(Drop)]
struct Watch {
    syncs: Cell<u32>,
    asked: Cell<u32>,
    otherwise: Cell<u32>,
}

impl Watch {
    /// Counts a datagram that is asked for.
    fn ask(&self) {
        let asked = self.asked.get();
        if self.syncs.get() != asked.saturating_mul(2).saturating_add(2) {
            self.otherwise.set(self.otherwise.get().saturating_add(1));
        }
        self.asked.set(asked.saturating_add(1));
    }
}

/// The link or the disk, and what watches it.
#[derive(Drop)]
struct Watched<'a, T> {
    inner: T,
    watch: &'a Watch,
}

impl<D: Disk> Disk for Watched<'_, D> {
    ghost seen = { λ w. D.seen w.inner };

    ghost faults = { λ w. D.faults w.inner };

    ghost sound = { λ w. D.sound w.inner };

    fn length(&mut self) -> Result<u64, Failed> {
        self.inner.length()
    }

    fn read_at(&mut self, at: u64, into: &mut [u8]) -> Result<(), Failed> {
        self.inner.read_at(at, into)
    }

    fn write_at(&mut self, at: u64, bytes: &[u8]) -> Result<(), Failed> {
        self.inner.write_at(at, bytes)
    }

    fn cut(&mut self, to: u64) -> Result<(), Failed> {
        self.inner.cut(to)
    }

    fn sync(&mut self) -> Result<(), Failed> {
        self.watch
            .syncs
            .set(self.watch.syncs.get().saturating_add(1));
        self.inner.sync()
    }
}

impl<K: Link> Link for Watched<'_, K> {
    ghost seen = { λ w. K.seen w.inner };

    ghost small = { λ w. K.small w.inner };

    fn bind(&mut self, address: &str) -> Result<u16, Failed> {
        self.inner.bind(address)
    }

    fn aim(&mut self, address: &str) -> Result<(), Failed> {
        self.inner.aim(address)
    }

    fn send(&mut self, datagram: &[u8]) -> Result<(), Failed> {
        self.inner.send(datagram)
    }

    fn next(&mut self, into: &mut [u8]) -> Result<Got, Failed> {
        self.watch.ask();
        self.inner.next(into)
    }
}

/// How a run ends to which all packets come, how many datagrams it asked for, and how often there were other syncs before that.
fn run_watched(alloc: Global) -> Result<(KeepStatus, u32, u32), NoMemory> {
    let watch = Watch {
        syncs: Cell::new(0),
        asked: Cell::new(0),
        otherwise: Cell::new(0),
    };
    let words = words_of(alloc, &BY_LINK)?;
    let disk: Watched<'_, MemoryDisk> = Watched {
        inner: disk_of(alloc, b"", None)?,
        watch: &watch,
    };
    let mut link = Watched {
        inner: MemoryLink::new(alloc, datagrams(alloc)?, Vec::new(alloc)),
        watch: &watch,
    };
    let mut place = MemoryPlace::new(alloc, Vec::new(alloc));
    let mut out = MemorySink::new(alloc, Vec::new(alloc));
    let (status, _) = keep(alloc, &words, disk, &mut place, &mut link, &mut out);
    Ok((status, watch.asked.get(), watch.otherwise.get()))
}

#[test]
fn syncs_each_packet_before_the_next_is_taken(rt: HostRuntime) -> Result<(), NoMemory> {
    assert_eq!(rt; run_watched(rt.alloc())?, (KeepStatus::Done, 7, 0));
    Ok(())
}
