//! Elements to vectors, and back.
ghost use Rattle.std.specs.Prelude.{◌≡◌, ℕ, ◌+◌, ◌<◌, ◌≤◌, length, slice_index_or};

use crate::lane::Lane;
use std::simd::prelude::*;

/// The elements from `at` on, and zeros past them.
#[inline(always)]
pub fn load<T: Lane>(rows: &[T], at: usize, zero: T) -> Simd<T, 32>
    requires { at ≤ length rows.now }
    ensures long { length result ≡ 32 }
    ensures lanes { (c : ℕ) → c < 32 → slice_index_or result c zero ≡ slice_index_or rows.now (at + c) zero }
{
    if rows.len() - at >= 32 {
        T::read(&rows[at..])
    } else {
        part(&rows[at..], zero)
    }
}

/// Fewer than 32 elements, and zeros past them.
#[cold]
#[inline(never)]
fn part<T: Lane>(rest: &[T], zero: T) -> Simd<T, 32>
    requires { length rest.now < 32 }
    ensures long { length result ≡ 32 }
    ensures lanes { (c : ℕ) → c < 32 → slice_index_or result c zero ≡ slice_index_or rest.now c zero }
{
    let mut all = [zero; 32];
    all[..rest.len()].copy_from_slice(rest);
    Simd::from_array(all)
}

/// Writes the first lanes.
#[inline(always)]
pub fn unload<T: Lane>(v: Simd<T, 32>, into: &mut [T])
    requires { length into.old ≤ 32 }
    ensures { (c : ℕ) (d : T) → c < length into.old → slice_index_or into.new c d ≡ slice_index_or v c d }
{
    let lanes = v.to_array();
    into.copy_from_slice(&lanes[..into.len()]);
}

/// Writes the lanes from `at` on, as far as there are elements.
#[inline(always)]
pub fn store<T: Lane>(v: Simd<T, 32>, rows: &mut [T], at: usize)
    requires long { length v ≡ 32 }
    requires place { at ≤ length rows.old }
    ensures inside { (c : ℕ) (d : T) → c < 32 → at + c < length rows.old
        → slice_index_or rows.new (at + c) d ≡ slice_index_or v c d }
    ensures before { (i : ℕ) (d : T) → i < at → slice_index_or rows.new i d ≡ slice_index_or rows.old i d }
    ensures behind { (i : ℕ) (d : T) → at + 32 ≤ i → slice_index_or rows.new i d ≡ slice_index_or rows.old i d }
{
    if rows.len() - at >= 32 {
        T::write(v, &mut rows[at..]);
    } else {
        unload(v, &mut rows[at..]);
    }
}
