//! The values of blocks at many points, over the field of 65,536 elements.
ghost use Rattle.std.specs.Prelude.{◌≡◌, ℕ, ◌+◌, ◌*◌, ◌<◌, ◌≤◌, length};

use crate::{digest, words};
use field_rows::{Block, MAX_WIDTH};
use field_values::AllValues;
use pet_base::{MAX_PACKETS, NoMemory, Steps};
use std::alloc::Global;
use std::marker::Brand;
use std::sync::ledger::{Blank, Ledger};

/// The length and the width of a block, the first number and how many there are, and the digest of the values, as a model
/// in Python has them by Horner's rule, with products by shifts.
const CASES: [[u32; 5]; 10] = [
    [0, 3, 5, 4, 0x0000_0000],
    [1, 2, 0, 3, 0xa456_bca5],
    [2, 1, 1, 7, 0x5251_ca02],
    [3, 5, 4_090, 6, 0xad37_29db],
    [7, 32, 0, 9, 0x1b03_3986],
    [16, 6, 17, 20, 0xb55b_769e],
    [33, 3, 100, 40, 0xedbe_0e7d],
    [64, 7, 0, 64, 0xc8bf_d251],
    [95, 32, 3, 100, 0x100b_a392],
    [120, 2, 100, 300, 0x8cd6_ff28],
];

/// The digest of the values.
fn values<F: AllValues<Elem = u16>, L: Ledger>(
    alloc: Global,
    f: &F,
    rows: &[u16],
    block: Block,
    first: usize,
    count: usize,
    steps: &mut Steps<L>,
) -> Result<u32, NoMemory>
    requires all { (a : ℕ) → a < 65536 → F.is_element a }
    requires points { first + count ≤ F.COUNT }
    requires narrow { block.width ≤ MAX_WIDTH }
    requires few { first + count ≤ MAX_PACKETS }
    requires whole { length rows.now ≡ block.length * block.width }
{
    let found = f.value_rows(alloc, &[block], rows, block.width, first, count, steps)?;
    Ok(digest(&found))
}

/// The digest of the values of a block of such words.
fn digest_of_values<F: AllValues<Elem = u16>, L: Ledger>(
    alloc: Global,
    f: &F,
    block: Block,
    first: usize,
    count: usize,
    blank: Blank,
) -> Result<u32, NoMemory>
    requires all { (a : ℕ) → a < 65536 → F.is_element a }
    requires points { 4096 ≤ F.COUNT }
    requires narrow { block.width ≤ MAX_WIDTH }
    requires short { block.length ≤ 4096 }
    requires few { first + count ≤ MAX_PACKETS }
    requires name { blank.name ≡ L.name }
    requires parts { blank.parts ≡ L.parts }
    requires some { 0 < blank.parts }
{
    let mut steps = Steps::<L>::new(blank);
    let rows = words(alloc, 7, block.length * block.width)?;
    values(alloc, f, &rows, block, first, count, &mut steps)
}

/// Whether the digest of a row of the table is so.
fn is_so<F: AllValues<Elem = u16>>(alloc: Global, f: &F, case: &[u32; 5]) -> bool
    requires all { (a : ℕ) → a < 65536 → F.is_element a }
    requires points { 4096 ≤ F.COUNT }
{
    let [length, width, first, count, digest] = *case;
    if length > 4_096 || width > 32 || first > 4_096 || count > 4_096 - first {
        return false;
    }
    let block = Block {
        length: length as usize,
        width: width as usize,
    };
    let (first, count) = (first as usize, count as usize);
    digest_of_values::<F, Brand>(alloc, f, block, first, count, Blank::new(1)) == Ok(digest)
}

/// The number of the first row of the table that is not so.
pub(crate) fn first_other<F: AllValues<Elem = u16>>(alloc: Global, f: &F) -> Option<usize>
    requires all { (a : ℕ) → a < 65536 → F.is_element a }
    requires points { 4096 ≤ F.COUNT }
{
    CASES.iter().position(|case| !is_so(alloc, f, case))
}
