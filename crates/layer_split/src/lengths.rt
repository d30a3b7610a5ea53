//! The lengths of a group's layers.
ghost use Rattle.std.specs.Prelude.{◌≡◌, ◌≤◌, ◌+◌, ◌==◌, length, sum_by, if◌then◌else◌};
ghost use Rattle.pet_base.specs.declared.limits.TheConstants.{MAX_GROUP_BYTES, MAX_LAYERS};
ghost use Rattle.layer_split.specs.Layers as layers;

use crate::cut::Run;
use arrayvec::ArrayVec;
use pet_base::MAX_LAYERS;

/// The bytes of a run table without runs.
pub const EMPTY_RUN_TABLE: u64 = 4;

/// The bytes of a run in the run table.
pub const RUN_ENTRY: u64 = 5;

/// The lengths of so many layers, of which there are at most `MAX_LAYERS`, where the group is not too long.
pub fn lengths_of(runs: &[Run], count: usize) -> ArrayVec<u32, MAX_LAYERS>
    ensures { count ≤ MAX_LAYERS → layers.run_table_size (length runs.now) + sum_by (λ run. run.len) runs.now ≤ MAX_GROUP_BYTES
        → result.items ≡ layers.lengths_of runs.now count }
{
    let mut lengths = ArrayVec::new();
    for layer in 0..count.min(MAX_LAYERS) {
        lengths.push(layer_length(runs, layer as u8).min(u32::MAX as u64) as u32);
    }
    lengths
}

/// The length of a layer, where it is not too long.
fn layer_length(runs: &[Run], layer: u8) -> u64
    ensures { layers.layer_length runs.now layer ≤ MAX_GROUP_BYTES
        → result ≡ layers.layer_length runs.now layer }
{
    let mut length = table_part(runs.len(), layer);
    for run in runs {
        length = with_part(length, *run, layer);
    }
    length
}

/// The length with what a run adds to a layer, where that is not too long.
fn with_part(length: u64, run: Run, layer: u8) -> u64
    ensures { let part = if run.layer == layer then run.len else 0 in length + part ≤ MAX_GROUP_BYTES → result ≡ length + part }
{
    if run.layer == layer {
        return length.saturating_add(run.len as u64);
    }
    length
}

/// What the run table of so many runs adds to a layer, where that is not too long.
fn table_part(count: usize, layer: u8) -> u64
    ensures { let part = if layer == 0 then layers.run_table_size count else 0 in part ≤ MAX_GROUP_BYTES → result ≡ part }
{
    if layer == 0 {
        return (count as u64)
            .saturating_mul(RUN_ENTRY)
            .saturating_add(EMPTY_RUN_TABLE);
    }
    0
}
