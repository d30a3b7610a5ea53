//! What the row calls of the field of 65,536 elements answer, by blocks of 1, 8 and 32 stripes, and the additive fast Fourier transform,
//! beside what single products answer: the packets of a group that is encoded, and the words of one that is decoded.

use crate::coding::Way;
use crate::group::{Group, decode, encode, lay_out, words};
use crate::transform::transformed;
use pet_base::Steps;
use pet_field::Gf16Tables;
use std::alloc::AllocError;
use std::io;
use std::sync::ledger::Ledger;
use std::time::Instant;

/// The group that is compared.
const SMALL: Group = Group {
    length: 20,
    stripes: 96,
    packets: 24,
};

/// The group that is timed.
const LARGE: Group = Group {
    length: 80,
    stripes: 448,
    packets: 100,
};

/// A group that is coded in several ways.
#[derive(Drop)]
struct Compared<'t> {
    tables: &'t Gf16Tables,
    group: Group,
    row: &'t [u16],
    /// Whether it is told how long a product took.
    timed: bool,
}

/// Codes a group in each way, and prints whether the answers are those of single products. With `timed` a larger group is taken, and
/// it is also told how many picoseconds a product took.
pub fn compare_rows<L: Ledger>(
    rt: &HostRuntime,
    timed: bool,
    steps: &mut Steps<L>,
) -> io::Result<()> {
    let Ok(tables) = Gf16Tables::new(rt.alloc()) else {
        return Err(AllocError.into());
    };
    let group = if timed { LARGE } else { SMALL };
    let row = words(rt.alloc(), group.words())?;
    let compared = Compared {
        tables: &tables,
        group,
        row: &row,
        timed,
    };
    compare_ways(rt, &compared, steps)
}

/// Codes the group in each way.
fn compare_ways<L: Ledger>(
    rt: &HostRuntime,
    compared: &Compared<'_>,
    steps: &mut Steps<L>,
) -> io::Result<()> {
    let plain = packets(rt, compared, Way::Singly, "singly", steps)?;
    for width in [1, 8, 32] {
        compare_blocks(rt, compared, width, &plain, steps)?;
    }
    let encodes = transform(rt, compared, steps)?.starts_with(&plain);
    println!(rt; "transform: encodes {encodes}")
}

/// Codes the group by blocks of one width.
fn compare_blocks<L: Ledger>(
    rt: &HostRuntime,
    compared: &Compared<'_>,
    width: usize,
    plain: &[u16],
    steps: &mut Steps<L>,
) -> io::Result<()> {
    let coded = packets(rt, compared, Way::Blocks(width), "encode", steps)?;
    let decodes = is_found_again(rt, compared, width, &coded, steps)?;
    let encodes = coded.as_slice() == plain;
    println!(rt; "blocks of {width}: encodes {encodes}, decodes {decodes}")
}

/// The packets of the group.
fn packets<L: Ledger>(
    rt: &HostRuntime,
    compared: &Compared<'_>,
    way: Way,
    what: &str,
    steps: &mut Steps<L>,
) -> io::Result<Vec<u16>> {
    let group = &compared.group;
    let start = Instant::now(rt)?;
    let packets = encode(rt.alloc(), compared.tables, group, way, compared.row, steps)?;
    tell_time(rt, compared, what, start, group.encoding())?;
    Ok(packets)
}

/// Whether the words are found again in the packets.
fn is_found_again<L: Ledger>(
    rt: &HostRuntime,
    compared: &Compared<'_>,
    width: usize,
    packets: &[u16],
    steps: &mut Steps<L>,
) -> io::Result<bool> {
    let group = &compared.group;
    let start = Instant::now(rt)?;
    let known = decode(rt.alloc(), compared.tables, group, width, packets, steps)?;
    tell_time(rt, compared, "decode", start, group.decoding())?;
    let laid = lay_out(rt.alloc(), group, width, compared.row)?;
    Ok(known.places == laid)
}

/// The packets by the additive fast Fourier transform, and what stands behind them.
fn transform<L: Ledger>(
    rt: &HostRuntime,
    compared: &Compared<'_>,
    steps: &mut Steps<L>,
) -> io::Result<Vec<u16>> {
    let group = &compared.group;
    let start = Instant::now(rt)?;
    let values = transformed(rt.alloc(), compared.tables, group, compared.row, steps)?;
    tell_time(rt, compared, "encode", start, group.encoding())?;
    Ok(values)
}

/// Prints how many picoseconds each of these products took, where it is to be told.
fn tell_time(
    rt: &HostRuntime,
    compared: &Compared<'_>,
    what: &str,
    start: Instant,
    products: u64,
) -> io::Result<()> {
    let time = start.elapsed(rt)?;
    if !compared.timed {
        return Ok(());
    }
    let nanoseconds = time
        .as_secs()
        .wrapping_mul(1_000_000_000)
        .wrapping_add(u64::from(time.subsec_nanos()));
    let picoseconds = nanoseconds.wrapping_mul(1_000) / products.max(1);
    println!(rt; "  {what} {picoseconds} ps a product")
}
