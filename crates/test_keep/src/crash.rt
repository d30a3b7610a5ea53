//! What a crash may leave of a file that was written and not synced.
ghost use Rattle.std.specs.Prelude.{◌≡◌, ◌≤◌, ◌<◌, ◌+◌, ◌^◌, length, vec_len, IfOk};
ghost use Rattle.outside_disk.specs.Disk.{Torn};

use std::alloc::{AllocError, Global};

/// What the number is multiplied with, and what is added then.
const FACTOR: u64 = 6_364_136_223_846_793_005;

const TERM: u64 = 1_442_695_040_888_963_407;

/// Numbers that are drawn from a seed.
#[derive(Drop)]
pub struct Draws {
    state: u64,
}

impl Draws {
    /// The numbers of this seed.
    pub fn new(seed: u64) -> Draws {
        Draws { state: seed }
    }

    /// The next one, of at most 32 bits.
    fn draw(&mut self) -> u64 {
        self.state = self.state.wrapping_mul(FACTOR).wrapping_add(TERM);
        self.state >> 32
    }

    /// The next byte.
    fn byte(&mut self) -> u8 {
        (self.draw() & 255) as u8
    }

    /// The next one, at most this.
    pub fn up_to(&mut self, most: usize) -> usize
        ensures { result ≤ most }
    {
        if most == usize::MAX {
            return 0;
        }
        self.draw() as usize % (most + 1)
    }
}

/// So many bytes that are drawn.
fn drawn(alloc: Global, count: usize, draws: &mut Draws) -> Result<Vec<u8>, AllocError>
    ensures { IfOk result (λ bytes. vec_len bytes ≡ count) }
{
    let mut bytes = Vec::new(alloc);
    for made in 0..count {
        bytes.push(draws.byte())?;
    }
    Ok(bytes)
}

/// What a crash may leave of these bytes where so many were written at a place: there any that are drawn, and past the old end
/// some of them or none.
pub fn torn(
    alloc: Global,
    old: &[u8],
    at: usize,
    count: usize,
    draws: &mut Draws,
) -> Result<Vec<u8>, AllocError>
    requires place { at ≤ length old.now }
    requires far { at + count < 2 ^ 64 }
    ensures { IfOk result (λ new. Torn at count old.now new.items) }
{
    let mut new = Vec::from_slice(alloc, &old[..at])?;
    let end = at + count;
    if end < old.len() {
        let part = drawn(alloc, count, draws)?;
        new.extend_from_slice(&part)?;
        new.extend_from_slice(&old[end..])?;
    } else {
        let more = draws.up_to(end - old.len());
        let part = drawn(alloc, old.len() - at + more, draws)?;
        new.extend_from_slice(&part)?;
    }
    Ok(new)
}
