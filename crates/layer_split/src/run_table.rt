//! The run table at the front of layer 0, as it is read.
ghost use Rattle.std.specs.Prelude.{◌≡◌, ◌≤◌, ◌<◌, ◌+◌, ◌^◌, ◌==◌, nat_le, true, false, length, IfOk, MatchOption, if◌then◌else◌};
ghost use Rattle.std.specs.List.{list_all};
ghost use Rattle.layer_split.specs.Layers.{run_table_size};
ghost use Rattle.layer_split.specs.RunTable as table;

use pet_base::NoMemory;
use std::alloc::Global;

/// A run that a run table names.
#[derive(Clone, Copy, Debug, PartialEq, Eq)]
pub struct NamedRun {
    /// The number of its layer, from 0.
    pub layer: u8,
    /// Its number of bytes.
    pub len: u32,
}

/// The runs that the run table of layer 0 names, and `None` exactly where layer 0 with these bytes has none that fits
/// layers of these lengths. The first of the lengths is not looked at: layer 0 has the bytes that it has.
pub fn read_run_table(
    alloc: Global,
    layer_0: &[u8],
    lengths: &[u32],
) -> Result<Option<Vec<NamedRun>>, NoMemory>
    ensures { IfOk result (λ runs. MatchOption runs (table.fits layer_0.now lengths.now ≡ false)
        (λ runs. (table.fits layer_0.now lengths.now ≡ true) × (runs.items ≡ table.named_runs layer_0.now))) }
{
    if !has_table(layer_0) {
        return Ok(None);
    }
    let runs = named_runs(alloc, layer_0)?;
    if are_of(layer_0.len(), lengths, runs.as_slice()) {
        return Ok(Some(runs));
    }
    Ok(None)
}

/// Whether the table is there, whole.
fn has_table(bytes: &[u8]) -> bool
    ensures { result ≡ table.has_table bytes.now }
{
    bytes.len() >= 4 && is_whole(bytes)
}

/// Whether a table of this number of runs is there.
fn is_whole(bytes: &[u8]) -> bool
    requires { 4 ≤ length bytes.now }
    ensures { result ≡ nat_le (run_table_size (table.run_count bytes.now)) (length bytes.now) }
{
    4 + 5 * number_at(bytes, 0) as u64 <= bytes.len() as u64
}

/// The big-endian number in the four bytes from here on.
fn number_at(bytes: &[u8], at: usize) -> u32
    requires { at + 4 ≤ length bytes.now }
    ensures { result ≡ table.number_at bytes.now at }
{
    u32::from_be_bytes([bytes[at], bytes[at + 1], bytes[at + 2], bytes[at + 3]])
}

/// The runs that a whole table names.
fn named_runs(alloc: Global, bytes: &[u8]) -> Result<Vec<NamedRun>, NoMemory>
    requires { table.has_table bytes.now ≡ true }
    ensures runs { IfOk result (λ runs. runs.items ≡ table.named_runs bytes.now) }
    ensures few { IfOk result (λ runs. length runs.items < 2 ^ 32) }
{
    let mut runs = Vec::new(alloc);
    for i in 0..number_at(bytes, 0) as usize {
        runs.push(NamedRun {
            layer: bytes[4 + 5 * i],
            len: number_at(bytes, 5 + 5 * i),
        })?;
    }
    Ok(runs)
}

/// Whether the runs are those of layers of these lengths, where layer 0 has so many bytes.
fn are_of(len: usize, lengths: &[u32], runs: &[NamedRun]) -> bool
    requires { length runs.now < 2 ^ 32 }
    ensures { result ≡ table.are_of len lengths.now runs.now }
{
    are_runs(lengths.len(), runs)
        && alternates(runs)
        && fills_layer_0(len, runs)
        && fills_others(lengths, runs)
}

fn are_runs(layers: usize, runs: &[NamedRun]) -> bool
    ensures { result ≡ list_all (table.is_run layers) runs.now }
{
    runs.iter()
        .all(|run| (run.layer as usize) < layers && run.len > 0)
}

fn alternates(runs: &[NamedRun]) -> bool
    ensures { result ≡ table.alternates runs.now }
{
    let mut last = 256u16;
    for run in runs {
        if run.layer as u16 == last {
            return false;
        }
        last = run.layer as u16;
    }
    true
}

fn fills_layer_0(len: usize, runs: &[NamedRun]) -> bool
    requires { length runs.now < 2 ^ 32 }
    ensures { result ≡ table.fills_layer_0 len runs.now }
{
    4 + 5 * runs.len() as u128 + bytes_in(0, runs) as u128 == len as u128
}

fn fills_others(lengths: &[u32], runs: &[NamedRun]) -> bool
    requires { length runs.now < 2 ^ 32 }
    ensures { result ≡ table.fills_others lengths.now runs.now }
{
    for layer in 1..lengths.len() {
        if bytes_in(layer, runs) != lengths[layer] as u64 {
            return false;
        }
    }
    true
}

/// The bytes of a layer's runs.
fn bytes_in(layer: usize, runs: &[NamedRun]) -> u64
    requires { length runs.now < 2 ^ 32 }
    ensures { result ≡ table.bytes_in layer runs.now }
{
    let mut total = 0u64;
    for run in runs {
        total += part_of(layer, *run) as u64;
    }
    total
}

/// What a run adds to a layer.
fn part_of(layer: usize, run: NamedRun) -> u32
    ensures { result ≡ (if run.layer == layer then run.len else 0) }
{
    if run.layer as usize == layer {
        run.len
    } else {
        0
    }
}
