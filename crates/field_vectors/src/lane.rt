//! Elements of which vectors are read and written.
ghost use Rattle.std.specs.Prelude.{◌≡◌, ◌≤◌, length};
ghost use Rattle.std.specs.Simd.Lanes.{chunk, put_chunk};

use std::simd::SimdElement;
use std::simd::prelude::*;

/// A number of which 32 are read into a vector, and written from one, at once.
pub trait Lane: SimdElement {
    /// The first 32.
    fn read(from: &[Self]) -> Simd<Self, 32>
        requires { 32 ≤ length from.now }
        ensures { result ≡ chunk 0 32 from.now };

    /// Writes 32.
    fn write(v: Simd<Self, 32>, into: &mut [Self])
        requires long { length v ≡ 32 }
        requires room { 32 ≤ length into.old }
        ensures { into.new ≡ put_chunk 0 into.old v };
}

impl Lane for u8 {
    #[inline(always)]
    fn read(from: &[u8]) -> u8x32 {
        u8x32::from_slice(from)
    }

    #[inline(always)]
    fn write(v: u8x32, into: &mut [u8])
        requires long { length v ≡ 32 }
        requires room { 32 ≤ length into.old }
        ensures { into.new ≡ put_chunk 0 into.old v }
    {
        v.copy_to_slice(into);
    }
}

impl Lane for u16 {
    #[inline(always)]
    fn read(from: &[u16]) -> u16x32 {
        u16x32::from_slice(from)
    }

    #[inline(always)]
    fn write(v: u16x32, into: &mut [u16])
        requires long { length v ≡ 32 }
        requires room { 32 ≤ length into.old }
        ensures { into.new ≡ put_chunk 0 into.old v }
    {
        v.copy_to_slice(into);
    }
}
