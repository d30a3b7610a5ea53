//! A group of stripes of one length, and its packets.
ghost use Rattle.std.specs.Prelude.{◌≡◌, vec_len, IfOk};

use crate::coding::{Known, Way, absorb, packet};
use field_rows::transpose;
use pet_base::Steps;
use pet_field::Gf16Tables;
use std::alloc::{AllocError, Global};
use std::sync::ledger::Ledger;

/// So many stripes of so many words, and how many packets are made of them.
#[derive(Clone, Copy, Drop)]
pub struct Group {
    pub length: u16,
    pub stripes: u16,
    pub packets: u16,
}

impl Group {
    /// How many words it has.
    pub fn words(&self) -> usize {
        usize::from(self.length) * usize::from(self.stripes)
    }

    /// How many products the packets take.
    pub fn encoding(&self) -> u64 {
        u64::from(self.length) * u64::from(self.stripes) * u64::from(self.packets)
    }

    /// How many products it takes to find the words again.
    pub fn decoding(&self) -> u64 {
        u64::from(self.length) * u64::from(self.length) * u64::from(self.stripes)
    }
}

/// So many words, none like the next.
pub fn words(alloc: Global, count: usize) -> Result<Vec<u16>, AllocError>
    ensures { IfOk result (λ v. vec_len v ≡ count) }
{
    let mut words = vec![in alloc; 0u16; count]?;
    let mut state: u64 = 1;
    for i in 0..count {
        state = state
            .wrapping_mul(6_364_136_223_846_793_005)
            .wrapping_add(1_442_695_040_888_963_407);
        words[i] = (state >> 48) as u16;
    }
    Ok(words)
}

/// The words in blocks of so many stripes.
pub fn lay_out(
    alloc: Global,
    group: &Group,
    width: usize,
    row: &[u16],
) -> Result<Vec<u16>, AllocError> {
    let length = usize::from(group.length);
    let mut laid = vec![in alloc; 0u16; row.len()]?;
    if length > 0 && width > 0 && width <= 32 {
        let size = length * width;
        for (part, into) in row.chunks_exact(size).zip(laid.chunks_exact_mut(size)) {
            if part.len() == size && into.len() == size {
                transpose(part, length, width, into);
            }
        }
    }
    Ok(laid)
}

/// The packets.
#[inline(never)]
pub fn encode<L: Ledger>(
    alloc: Global,
    tables: &Gf16Tables,
    group: &Group,
    way: Way,
    row: &[u16],
    steps: &mut Steps<L>,
) -> Result<Vec<u16>, AllocError> {
    let laid = lay_out(alloc, group, way.width(), row)?;
    let stripes = usize::from(group.stripes);
    let mut packets = vec![in alloc; 0u16; stripes * usize::from(group.packets)]?;
    if stripes > 0 {
        let places = packets.chunks_exact_mut(stripes);
        for (into, x) in places.zip(0..group.packets) {
            packet(
                tables,
                way,
                &laid,
                usize::from(group.length),
                x,
                into,
                steps,
            );
        }
    }
    Ok(packets)
}

/// What is known after as many packets as a stripe has words.
#[inline(never)]
pub fn decode<L: Ledger>(
    alloc: Global,
    tables: &Gf16Tables,
    group: &Group,
    width: usize,
    packets: &[u16],
    steps: &mut Steps<L>,
) -> Result<Known, AllocError> {
    let mut known = Known {
        places: vec![in alloc; 0u16; group.words()]?,
        product: Vec::new(alloc),
        row: vec![in alloc; 0u16; width]?,
    };
    let stripes = usize::from(group.stripes);
    let length = usize::from(group.length);
    if stripes > 0 {
        for (payload, x) in packets.chunks_exact(stripes).zip(0..group.length) {
            absorb(alloc, tables, &mut known, length, x, payload, steps)?;
        }
    }
    Ok(known)
}
