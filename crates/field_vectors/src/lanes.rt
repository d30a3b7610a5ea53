//! Vectors, lane by lane.
ghost use Rattle.std.specs.Prelude.{◌≡◌, ℕ, List, slice_index, ◌+◌, ◌*◌, ◌/◌, ◌%◌, ◌<◌, length, map, bit_xor, bit_and};
ghost use Rattle.std.specs.Simd.Lanes.{Each1, zip2};
ghost use Rattle.field_vectors.specs.Spread.{IsSpread};
ghost use Rattle.field_vectors.specs.inside.Lanes.{at_nibbles};

use std::simd::prelude::*;

/// The low byte of each lane.
#[inline(always)]
pub(crate) fn split_low(v: u16x32) -> u8x32
    ensures { result ≡ map (λ a. a % 256) v }
{
    (v & u16x32::splat(255)).cast::<u8>()
}

/// The high byte of each lane.
#[inline(always)]
pub(crate) fn split_high(v: u16x32) -> u8x32
    ensures { result ≡ map (λ a. a / 256) v }
{
    (v >> u16x32::splat(8)).cast::<u8>()
}

/// Words of their low and high bytes.
#[inline(always)]
pub(crate) fn join(low: u8x32, high: u8x32) -> u16x32
    ensures { result ≡ zip2 (λ a b. bit_xor a (b * 256)) low high }
{
    low.cast::<u16>() ^ (high.cast::<u16>() << u16x32::splat(8))
}

/// A table of sixteen bytes twice.
#[inline(always)]
pub fn spread(table: &[u8; 16]) -> u8x32
    ensures { IsSpread table.now result }
{
    u8x16::from_slice(table).swizzle([
        0, 1, 2, 3, 4, 5, 6, 7, 8, 9, 10, 11, 12, 13, 14, 15, 0, 1, 2, 3, 4, 5, 6, 7, 8, 9, 10, 11,
        12, 13, 14, 15,
    ])
}

/// The entries at the low nibbles.
#[inline(always)]
pub fn at_low(table: u8x32, v: u8x32) -> u8x32
    ensures { (entries : List ℕ) → IsSpread entries table → result ≡ map (λ a. slice_index entries (a % 16)) v }
{
    table.swizzle_dyn_within::<16>(v & u8x32::splat(15))
}

/// The entries at the high nibbles.
#[inline(always)]
pub fn at_high(table: u8x32, v: u8x32) -> u8x32
    ensures { (entries : List ℕ) → IsSpread entries table → result ≡ map (λ a. slice_index entries (a / 16)) v }
{
    table.swizzle_dyn_within::<16>(v >> u8x32::splat(4))
}

/// The sum of four entries for each lane, one for each nibble.
#[inline(always)]
pub(crate) fn look_up(t0: u8x32, t1: u8x32, t2: u8x32, t3: u8x32, low: u8x32, high: u8x32) -> u8x32
    ensures { (e0 e1 e2 e3 v : List ℕ) → IsSpread e0 t0 → IsSpread e1 t1 → IsSpread e2 t2 → IsSpread e3 t3 → low ≡ map (λ a. a % 256) v → high ≡ map (λ a. a / 256) v → result ≡ map (at_nibbles e0 e1 e2 e3) v }
{
    at_low(t0, low) ^ at_high(t1, low) ^ at_low(t2, high) ^ at_high(t3, high)
}
