//! Values from outside, over the field of 65,536 elements.
ghost use Rattle.std.specs.Prelude.{◌≡◌, ◌+◌, ◌*◌, ◌<◌, ◌≤◌, ◌^◌, length, slice_index, IfOk, ℕ, vec_len};

use crate::digest;
use field_transform::{Subspaces, convert, values, values_at_coset};
use pet_base::Steps;
use std::alloc::{AllocError, Global};
use std::marker::Brand;
use std::sync::ledger::{Blank, Ledger};

/// The width, the level, the rows that are not zero, the block and the points of it, and the digest of the values, as a model in
/// Python has them by Horner's rule, with products by shifts.
const CASES: [[u32; 6]; 22] = [
    [1, 0, 1, 5, 1, 0x0000_9e3e],
    [3, 0, 1, 65_535, 1, 0x025a_3395],
    [4, 1, 2, 1, 2, 0xd4d6_e09e],
    [1, 3, 8, 1, 8, 0x0ab6_e60e],
    [5, 3, 8, 0, 8, 0x27ea_4190],
    [32, 4, 16, 0, 16, 0x88e1_8590],
    [33, 5, 32, 2_047, 32, 0x350c_bec7],
    [0, 4, 16, 1, 16, 0x0000_0000],
    [70, 5, 32, 3, 32, 0x9436_f2fe],
    [2, 7, 128, 0, 128, 0x068a_fe77],
    [1, 7, 128, 511, 128, 0xc5eb_c333],
    [5, 3, 5, 0, 8, 0x6263_78ca],
    [32, 4, 16, 3, 10, 0xedfd_1006],
    [3, 4, 9, 1, 7, 0x0187_0044],
    [33, 5, 24, 2_047, 19, 0xf1e9_2fb1],
    [70, 5, 17, 3, 21, 0xfb59_50a6],
    [2, 7, 80, 0, 100, 0x1a87_7a9d],
    [1, 7, 65, 511, 64, 0x2893_7e7c],
    [1, 7, 1, 2, 128, 0x4ccf_f000],
    [2, 5, 16, 9, 1, 0x001e_9de7],
    [4, 3, 0, 1, 5, 0x0000_0000],
    [2, 4, 16, 2, 0, 0x0000_0000],
];

/// So many words, of which those from `known` on are zero.
fn words(alloc: Global, count: usize, known: usize) -> Result<Vec<u16>, AllocError>
    ensures count { IfOk result (λ v. vec_len v ≡ count) }
    ensures zeros { IfOk result (λ v. (i : ℕ) → known ≤ i → slice_index v.items i ≡ 0) }
{
    let mut words = vec![in alloc; 0u16; count]?;
    let mut word: u16 = 7;
    for i in 0..known.min(count) {
        word = word.wrapping_add(40_503);
        words[i] = word;
    }
    Ok(words)
}

/// Takes rows to their values, at once, and as many rows by a conversion.
fn transform<F: Subspaces<Elem = u16>, L: Ledger>(
    f: &F,
    rows: &mut [u16],
    converted: &mut [u16],
    width: usize,
    level: u32,
    known: usize,
    block: u32,
    count: usize,
    steps: &mut Steps<L>,
)
    requires level { level < F.LEVELS }
    requires all { (a : ℕ) → a < 65536 → F.is_element a }
    requires nothing { F.coding.ops.nought ≡ 0 }
    requires size { length rows.old ≡ 2 ^ level * width }
    requires same { length converted.old ≡ 2 ^ level * width }
    requires zeros { (i : ℕ) → known * width ≤ i → slice_index rows.old i ≡ 0 }
    requires others { (i : ℕ) → known * width ≤ i → slice_index converted.old i ≡ 0 }
    requires known { known ≤ 2 ^ level }
    requires block { block * 2 ^ level < F.COUNT }
    requires count { count ≤ 2 ^ level }
    ensures size { length rows.new ≡ length rows.old }
    ensures same { length converted.new ≡ length converted.old }
{
    values(f, rows, width, level, known, block, count, steps);
    convert(f, converted, width, level, known, steps);
    values_at_coset(f, converted, width, level, block, count, steps);
}

/// The digests of the values of rows of such words, at once and by a conversion.
fn digests<F: Subspaces<Elem = u16>, L: Ledger>(
    alloc: Global,
    f: &F,
    width: usize,
    level: u32,
    known: usize,
    block: u32,
    count: usize,
    blank: Blank,
) -> Result<(u32, u32), AllocError>
    requires name { blank.name ≡ L.name }
    requires parts { blank.parts ≡ L.parts }
    requires some { 0 < blank.parts }
    requires width { width ≤ 100 }
    requires level { level < 8 }
    requires levels { 8 ≤ F.LEVELS }
    requires all { (a : ℕ) → a < 65536 → F.is_element a }
    requires nothing { F.coding.ops.nought ≡ 0 }
    requires known { known ≤ 2 ^ level }
    requires block { block * 2 ^ level < F.COUNT }
    requires count { count ≤ 2 ^ level }
{
    let mut steps = Steps::<L>::new(blank);
    let mut rows = words(alloc, width << level, known * width)?;
    let mut converted = words(alloc, width << level, known * width)?;
    transform(
        f,
        &mut rows,
        &mut converted,
        width,
        level,
        known,
        block,
        count,
        &mut steps,
    );
    let end = (count * width).min(rows.len()).min(converted.len());
    Ok((digest(&rows[..end]), digest(&converted[..end])))
}

/// Whether both digests of a row of the table are so.
fn is_so<F: Subspaces<Elem = u16>>(alloc: Global, f: &F, case: &[u32; 6]) -> bool
    requires levels { 8 ≤ F.LEVELS }
    requires count { F.COUNT ≡ 65536 }
    requires all { (a : ℕ) → a < 65536 → F.is_element a }
    requires nothing { F.coding.ops.nought ≡ 0 }
{
    let [width, level, known, block, count, digest] = *case;
    let size = 1 << level.min(7);
    if width > 100 || level > 7 || known > size || count > size || block > 65_535 >> level {
        return false;
    }
    let (width, known, count) = (width as usize, known as usize, count as usize);
    let blank = Blank::new(1);
    digests::<F, Brand>(alloc, f, width, level, known, block, count, blank) == Ok((digest, digest))
}

/// The number of the first row of the table that is not so.
pub(crate) fn first_other<F: Subspaces<Elem = u16>>(alloc: Global, f: &F) -> Option<usize>
    requires levels { 8 ≤ F.LEVELS }
    requires count { F.COUNT ≡ 65536 }
    requires all { (a : ℕ) → a < 65536 → F.is_element a }
    requires nothing { F.coding.ops.nought ≡ 0 }
{
    CASES.iter().position(|case| !is_so(alloc, f, case))
}
