//! Datagrams that have come and wait to be handed on.
ghost use Rattle.std.specs.Prelude.{◌≡◌, ◌≤◌, ◌+◌, ◌++◌, [], length, take, drop, Some, vec_len, vec_capacity, MatchOption};
ghost use Rattle.pet_base.specs.declared.limits.TheConstants.{MAX_ENTRY};
ghost use Rattle.pet_base.specs.Entries.{entry_text, first_entry};
ghost use Rattle.pet_ends.specs.Waits.{Waits, LacksEntry, HasMadeRoom};
ghost use Rattle.pet_ends.specs.declared.waiting.TheConstants.{LENGTH_BYTES};

use pet_base::MAX_ENTRY;
use std::alloc::Global;
use std::marker::Model;

/// The most bytes that are kept, two for each datagram's length among them: 64 MB.
const MOST_KEPT: usize = 67_108_864;

/// The bytes of a datagram's length.
const LENGTH_BYTES: usize = 2;

/// Whether a queue can keep one more datagram, however long.
#[derive(Clone, Copy, PartialEq, Eq)]
pub enum Room {
    /// It can.
    There,
    /// It would pass the most bytes that are kept.
    Full,
    NoMemory,
}

/// A queue of datagrams. They are kept on end, each after its length, as in a datagram file.
#[derive(Drop)]
pub struct Waiting {
    entries: Vec<u8>,
    /// The bytes in front that are handed on.
    gone: usize,
}

impl Model for Waiting {
    ghost Value = { Waits };

    ghost view = { λ w. record {
      entries = drop w.gone w.entries.items;
      kept = vec_len w.entries;
      room = vec_capacity w.entries;
    } };

    ghost invariant = { λ w. w.gone ≤ vec_len w.entries };
}

impl Waiting {
    /// No datagram.
    pub fn new(alloc: Global) -> Waiting
        ensures { result.entries ≡ [] }
    {
        Waiting {
            entries: Vec::new(alloc),
            gone: 0,
        }
    }

    /// Makes room for one more, however long.
    pub fn make_room(&mut self) -> Room
        ensures same { self.new.entries ≡ self.old.entries }
        ensures room { HasMadeRoom result self.new }
    {
        let longest = LENGTH_BYTES + usize::from(MAX_ENTRY);
        if self.entries.len() > MOST_KEPT - longest {
            return Room::Full;
        }
        match self.entries.reserve(longest) {
            Ok(()) => Room::There,
            Err(_) => Room::NoMemory,
        }
    }

    /// Puts a datagram behind the others, for which there is room.
    pub fn push(&mut self, datagram: &[u8])
        requires short { length datagram.now ≤ MAX_ENTRY }
        requires room { self.old.kept + LENGTH_BYTES + length datagram.now ≤ self.old.room }
        ensures { self.new.entries ≡ self.old.entries ++ entry_text datagram.now }
    {
        let length = datagram.len() as u16;
        let _ = self.entries.extend_from_slice(&length.to_be_bytes());
        let _ = self.entries.extend_from_slice(datagram);
    }

    /// Moves the datagram that came first to the front of the buffer, and says how long it is. None where no
    /// whole one waits.
    pub fn pop(&mut self, into: &mut [u8]) -> Option<usize>
        requires { MAX_ENTRY ≤ length into.old }
        ensures first { MatchOption result (LacksEntry self.old.entries × (self.new.entries ≡ self.old.entries))
            (λ count. (count ≤ MAX_ENTRY) × (first_entry self.old.entries ≡ Some (take count into.new, self.new.entries))) }
        ensures buffer { length into.new ≡ length into.old }
    {
        let (head, rest) = self.entries[self.gone..].split_first_chunk::<LENGTH_BYTES>()?;
        let count = usize::from(u16::from_be_bytes(*head));
        into[..count].copy_from_slice(rest.get(..count)?);
        self.gone += LENGTH_BYTES + count;
        self.forget();
        Some(count)
    }

    /// Forgets the bytes that are handed on, where they are more than the half. So a byte is moved once, on the average.
    fn forget(&mut self)
        ensures { self.new.entries ≡ self.old.entries }
    {
        if self.gone > self.entries.len() / 2 {
            let left = self.entries.len() - self.gone;
            self.entries.copy_within(self.gone.., 0);
            self.entries.truncate(left);
            self.gone = 0;
        }
    }
}
