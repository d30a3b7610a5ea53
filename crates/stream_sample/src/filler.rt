//! The bytes that fill pictures.
ghost use Rattle.std.specs.Prelude.{◌≡◌, ◌++◌, length, take, OnOk, OnErr};
ghost use Rattle.stream_sample.specs.Filler.{next_state, byte_of, bytes_from, state_after};

use pet_base::NoMemory;

/// What the number is multiplied with, and what is added then.
const FACTOR: u64 = 6_364_136_223_846_793_005;

const TERM: u64 = 1_442_695_040_888_963_407;

/// A generator of numbers of 64 bits, and of a byte of each.
#[derive(Drop)]
pub struct Filler {
    /// The last number.
    pub state: u64,
}

impl Filler {
    /// The next byte, which is not 0.
    pub fn next(&mut self) -> u8
        ensures state { self.new.state ≡ next_state self.old.state }
        ensures byte { result ≡ byte_of self.new.state }
    {
        self.state = self.state.wrapping_mul(FACTOR).wrapping_add(TERM);
        (self.state >> 56) as u8 | 1
    }

    /// Appends so many bytes, of which a front may stand after a refusal.
    pub fn fill(&mut self, count: u32, into: &mut Vec<u8>) -> Result<(), NoMemory>
        ensures bytes { OnOk result (into.new.items
            ≡ into.old.items ++ bytes_from self.old.state count) }
        ensures state { OnOk result (self.new.state ≡ state_after self.old.state count) }
        ensures err { OnErr result (take (length into.old.items) into.new.items ≡ into.old.items) }
    {
        for made in 0..count {
            into.push(self.next())?;
        }
        Ok(())
    }
}
