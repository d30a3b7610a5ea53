//! Products by rows, over the field of 65,536 elements, and stripes in blocks.
ghost use Rattle.std.specs.Prelude.{◌≡◌, ℕ, ◌*◌, ◌<◌, ◌≤◌, length, map, All, IfOk, vec_len};
ghost use Rattle.field_rows.specs.Blocks.{size_of, width_of};

use crate::{digest, words};
use field_elements::Gf16Plain;
use field_rows::{Block, MAX_WIDTH, Rows, block_values, lay_out, push_stripe};
use pet_base::{NoMemory, Steps};
use std::alloc::{AllocError, Global};
use std::marker::Brand;
use std::sync::ledger::{Blank, Ledger};

/// Rows and their width, a factor, and the digests of the values of the columns at the factor, of a row scaled by it, and of
/// the rows with multiples of the row added, as a model in Python has them that multiplies by shifts.
const CASES: [[u32; 6]; 8] = [
    [0, 3, 0x0005, 0x00000000, 0x001af487, 0x00000000],
    [1, 1, 0x0000, 0x00009e3e, 0x00000000, 0x00008a3b],
    [3, 1, 0x0002, 0x0000bc79, 0x0000505d, 0x00bd6700],
    [4, 5, 0xffff, 0x37bb6864, 0xbe3f7797, 0xa3c7e69e],
    [2, 31, 0x1234, 0x3f0dabdf, 0x4b5e36f1, 0x59cbaf28],
    [3, 32, 0x0001, 0x559f90f0, 0x0eea1970, 0xb4f39127],
    [7, 32, 0x8001, 0x8b108c69, 0xf58af411, 0x0b5f534f],
    [40, 17, 0x0fff, 0x11e2b6a2, 0xa6863b5c, 0xc8c24948],
];

/// Prepares each factor.
fn prepared<F: Rows<Elem = u16>>(
    alloc: Global,
    f: &F,
    factors: &[u16],
) -> Result<Vec<F::Factor>, AllocError>
    requires all { (a : ℕ) → a < 65536 → F.is_element a }
    ensures long { IfOk result (λ v. vec_len v ≡ length factors.now) }
    ensures factors { IfOk result (λ v. All (λ p. F.is_element (F.element_of p)) v.items) }
{
    let mut all = Vec::new(alloc);
    for i in 0..factors.len() {
        all.push(f.prepare(factors[i]))?;
    }
    Ok(all)
}

/// The digest of the values of the columns.
fn values<F: Rows<Elem = u16>, L: Ledger>(
    f: &F,
    rows: &[u16],
    count: usize,
    x: u16,
    into: &mut [u16],
    steps: &mut Steps<L>,
) -> u32
    requires all { (a : ℕ) → a < 65536 → F.is_element a }
    requires whole { length rows.now ≡ count * length into.old }
    requires narrow { length into.old ≤ MAX_WIDTH }
{
    f.values(rows, count, &f.prepare(x), into, steps);
    digest(into)
}

/// The digest of a row that is scaled.
fn scaled<F: Rows<Elem = u16>, L: Ledger>(
    f: &F,
    x: u16,
    row: &mut [u16],
    steps: &mut Steps<L>,
) -> u32
    requires all { (a : ℕ) → a < 65536 → F.is_element a }
    requires narrow { length row.old ≤ MAX_WIDTH }
{
    f.scale(&f.prepare(x), row, steps);
    digest(row)
}

/// The digest of rows to which multiples of a row by these factors were added.
fn added<F: Rows<Elem = u16>, L: Ledger>(
    f: &F,
    factors: &[F::Factor],
    row: &[u16],
    rows: &mut [u16],
    steps: &mut Steps<L>,
) -> u32
    requires all { (a : ℕ) → a < 65536 → F.is_element a }
    requires factors { All (λ p. F.is_element (F.element_of p)) factors.now }
    requires narrow { length row.now ≤ MAX_WIDTH }
    requires room { length factors.now * length row.now ≤ length rows.old }
{
    f.add_products(factors, row, rows, steps);
    digest(rows)
}

/// The three digests of a row of the table.
fn digests<F: Rows<Elem = u16>, L: Ledger>(
    alloc: Global,
    f: &F,
    count: usize,
    width: usize,
    x: u16,
    blank: Blank,
) -> Result<[u32; 3], AllocError>
    requires all { (a : ℕ) → a < 65536 → F.is_element a }
    requires narrow { width ≤ MAX_WIDTH }
    requires few { count ≤ 40 }
    requires name { blank.name ≡ L.name }
    requires parts { blank.parts ≡ L.parts }
    requires some { 0 < blank.parts }
{
    let mut steps = Steps::<L>::new(blank);
    let mut rows = words(alloc, 7, count * width)?;
    let mut row = words(alloc, 500, width)?;
    let factors = prepared(alloc, f, &words(alloc, x, count)?)?;
    let mut into = words(alloc, 0, width)?;
    let first = values(f, &rows, count, x, &mut into, &mut steps);
    let third = added(f, &factors, &row, &mut rows, &mut steps);
    let second = scaled(f, x, &mut row, &mut steps);
    Ok([first, second, third])
}

/// Whether the digests of a row of the table are so.
fn is_so<F: Rows<Elem = u16>>(alloc: Global, f: &F, case: &[u32; 6]) -> bool
    requires all { (a : ℕ) → a < 65536 → F.is_element a }
{
    let [count, width, x, values, scaled, added] = *case;
    if count > 40 || width > 32 || x > 65_535 {
        return false;
    }
    let (count, width) = (count as usize, width as usize);
    let found = digests::<F, Brand>(alloc, f, count, width, x as u16, Blank::new(1));
    found == Ok([values, scaled, added])
}

/// The number of the first row of the table that is not so.
pub(crate) fn first_other<F: Rows<Elem = u16>>(alloc: Global, f: &F) -> Option<usize>
    requires all { (a : ℕ) → a < 65536 → F.is_element a }
{
    CASES.iter().position(|case| !is_so(alloc, f, case))
}

/// 36 stripes of three, two and one elements, in blocks.
const BLOCKS: [Block; 4] = [
    Block {
        length: 3,
        width: 32,
    },
    Block {
        length: 3,
        width: 1,
    },
    Block {
        length: 2,
        width: 2,
    },
    Block {
        length: 1,
        width: 1,
    },
];

/// The digest of the values of the stripes.
fn stripe_values<L: Ledger>(blocks: &[Block], laid: &[u16], into: &mut [u16], blank: Blank) -> u32
    requires narrow { All (λ b. b.width ≤ MAX_WIDTH) blocks.now }
    requires laid { length laid.now ≡ size_of blocks.now }
    requires room { length into.old ≡ width_of blocks.now }
    requires name { blank.name ≡ L.name }
    requires parts { blank.parts ≡ L.parts }
    requires some { 0 < blank.parts }
{
    let mut steps = Steps::<L>::new(blank);
    let factor = Gf16Plain.prepare(0x0201);
    block_values(&Gf16Plain, blocks, laid, &factor, into, &mut steps);
    digest(into)
}

/// The digests of what is laid out, and of the values of its stripes, for blocks of so many elements in so many stripes.
fn laid_out(
    alloc: Global,
    blocks: &[Block],
    size: usize,
    width: usize,
) -> Result<[u32; 2], AllocError>
    requires narrow { All (λ b. b.width ≤ MAX_WIDTH) blocks.now }
    requires size { size ≡ size_of blocks.now }
    requires width { width ≡ width_of blocks.now }
{
    let row = words(alloc, 9, size)?;
    let mut laid = words(alloc, 0, size)?;
    lay_out(blocks, &row, &mut laid);
    let mut into = words(alloc, 0, width)?;
    let values = stripe_values::<Brand>(blocks, &laid, &mut into, Blank::new(1));
    Ok([digest(&laid), values])
}

#[test]
fn lays_out_stripes_of_three_lengths(rt: HostRuntime) {
    let digests = laid_out(rt.alloc(), &BLOCKS, 104, 36).expect(&rt, "memory");
    assert_eq!(rt; digests, [0xce3f_3fbe, 0xb2ba_a650]);
}

/// The blocks of 33 stripes of three elements, two of two and one of one.
fn pushed(alloc: Global) -> Result<Vec<Block>, NoMemory>
    ensures { IfOk result (λ v. All (λ b. b.width ≤ MAX_WIDTH) v.items) }
{
    let mut blocks = Vec::new(alloc);
    for _ in 0..33 {
        push_stripe(&mut blocks, 3)?;
    }
    push_stripe(&mut blocks, 2)?;
    push_stripe(&mut blocks, 2)?;
    push_stripe(&mut blocks, 1)?;
    Ok(blocks)
}

#[test]
fn fills_blocks_of_one_length(rt: HostRuntime) {
    let blocks = pushed(rt.alloc()).expect(&rt, "memory");
    assert_eq!(rt; blocks.len(), BLOCKS.len());
    for (found, want) in blocks.iter().zip(&BLOCKS) {
        assert_eq!(rt; found.length, want.length);
        assert_eq!(rt; found.width, want.width);
    }
}
