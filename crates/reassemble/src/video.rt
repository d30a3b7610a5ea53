//! The video of the leading layers.
ghost use Rattle.std.specs.Prelude.{◌≡◌, ◌↔◌, ℕ, ◌+◌, ◌<◌, ◌≤◌, false, true, List, [], ◌++◌, length, map, take, drop, slice_index, slice_index_or, Some, IfOk, IfErr, OnOk, OnErr, IsErrOf};
ghost use Rattle.std.specs.List.{range_with_len};
ghost use Rattle.pet_base.specs.declared.limits.TheConstants.{MAX_LAYERS};
ghost use Rattle.packet_set.specs.Packets.{Packets};
ghost use Rattle.layer_split.specs.RunTable.{fits};
ghost use Rattle.packet_session.specs.Session.{IsMessage, bytes_of_layer};
ghost use Rattle.pet_receive.specs.Arrivals.{Order, HasKept, kept_set, numbers_of, layers_of};
ghost use Rattle.packet_verdicts.specs.KeptSet.{open_group};
ghost use Rattle.pet_receive.specs.ShownBytes.{IsShown, IsShownBytes, Agrees};
ghost use Rattle.reassemble.specs.declared.fault.Assemble.{Assemble};
ghost use Rattle.reassemble.specs.Video.{group_video};
ghost use Rattle.layer_split.specs.Bytes.{Begins};
ghost use Rattle.reassemble.specs.Leading.{AreLeading, IsAssembled, IsUnfit, lengths_in};
ghost use Rattle.reassemble.specs.inside.Taking.{CanAppend, bytes_each, first_of};

use crate::fault::Assemble;
use crate::leading::{ShownLayer, leading_layers};
use arrayvec::ArrayVec;
use field_rows::Rows;
use layer_split::{NamedRun, read_run_table};
use pet_base::{MAX_LAYERS, NoMemory};
use pet_receive::Receiver;
use stripe_plan::LayerSize;

/// The bytes of a run table before its first entry.
const COUNT_BYTES: usize = 4;

/// The bytes of an entry.
const ENTRY_BYTES: usize = 5;

/// Appends the video of a group: the runs of its leading layers that are all shown, in the order of the stream. Answers how
/// many layers these are. The field writes an element in two bytes or more.
///
/// # Errors
///
/// `NoTable` exactly where layer 0 of the group is not shown, `BadTable` exactly where it has no run table that fits the
/// group's layers, and `NoMemory`. The vector is then as before.
pub fn assemble<F: Rows>(
    receiver: &Receiver<'_, F>,
    group: u32,
    into: &mut Vec<u8>,
) -> Result<usize, Assemble>
    requires width { 2 ≤ F.coding.width }
    ensures leading { IfOk result (λ k. AreLeading (kept_set receiver.now) group k) }
    ensures video { IfOk result (λ k. (order : Order) (p : Packets) → HasKept F.is_element F.coding receiver.now order
        → open_group (kept_set receiver.now) group ≡ Some p
        → IsAssembled F.is_element F.coding p (numbers_of order group) k into.old.items into.new.items) }
    ensures agreed { IfOk result (λ k. (p : Packets) (message : List ℕ) → open_group (kept_set receiver.now) group ≡ Some p
        → IsMessage F.coding.width (layers_of p) message → Agrees F.coding p message
        → into.new.items ≡ into.old.items
        ++ group_video (map (bytes_of_layer F.coding.width (layers_of p) message) (range_with_len 0 k))) }
    ensures no_table { IsErrOf result Assemble.NoTable ↔ (IsShown (kept_set receiver.now) group 0 → ⊥) }
    ensures bad_table { IsErrOf result Assemble.BadTable → (order : Order) (p : Packets)
        → HasKept F.is_element F.coding receiver.now order → open_group (kept_set receiver.now) group ≡ Some p
        → IsUnfit F.is_element F.coding p (numbers_of order group) }
    ensures bad_message { IsErrOf result Assemble.BadTable → (p : Packets) (message : List ℕ)
        → open_group (kept_set receiver.now) group ≡ Some p
        → IsMessage F.coding.width (layers_of p) message → Agrees F.coding p message
        → fits (bytes_of_layer F.coding.width (layers_of p) message 0) (lengths_in p) ≡ false }
    ensures kept { OnErr result (into.new.items ≡ into.old.items) }
{
    let _groups = receiver.groups();
    let header = match receiver.header(group) {
        Some(header) => header,
        None => return Err(Assemble::NoTable),
    };
    let lengths = lengths_of(header.table.layers());
    let layers = leading_layers(receiver, group);
    if layers.is_empty() {
        return Err(Assemble::NoTable);
    }
    put_together(layers.as_slice(), lengths.as_slice(), into)
}

/// The lengths of layers in bytes.
fn lengths_of(layers: &[LayerSize]) -> ArrayVec<u32, MAX_LAYERS>
    requires { length layers.now ≤ MAX_LAYERS }
    ensures { result.items ≡ map (λ layer. layer.length) layers.now }
{
    let mut lengths = ArrayVec::new();
    for layer in layers {
        lengths.push(layer.length);
    }
    lengths
}

/// Appends the video of some leading layers, where the group's layers have these lengths, and answers how many they are.
fn put_together(
    layers: &[ShownLayer<'_>],
    lengths: &[u32],
    into: &mut Vec<u8>,
) -> Result<usize, Assemble>
    requires some { 0 < length layers.now }
    requires few { length layers.now ≤ MAX_LAYERS }
    requires sized { (layer : ℕ) → layer < length layers.now
        → length (slice_index_or (bytes_each layers.now) layer [])
        ≡ slice_index lengths.now layer }
    ensures many { IfOk result (λ k. k ≡ length layers.now) }
    ensures fits { OnOk result (fits (first_of (bytes_each layers.now)) lengths.now ≡ true) }
    ensures video { OnOk result (into.new.items
        ≡ into.old.items ++ group_video (bytes_each layers.now)) }
    ensures bad_table { IsErrOf result Assemble.BadTable
        → fits (first_of (bytes_each layers.now)) lengths.now ≡ false }
    ensures others { IsErrOf result Assemble.NoTable → ⊥ }
    ensures kept { OnErr result (into.new.items ≡ into.old.items) }
{
    match read_run_table(*into.allocator(), layers[0].bytes, lengths)? {
        Some(runs) => {
            append_video(runs.as_slice(), layers, into)?;
            Ok(layers.len())
        }
        None => Err(Assemble::BadTable),
    }
}

/// Appends the runs of these layers, in order. After a refusal the vector is as before.
fn append_video(
    runs: &[NamedRun],
    layers: &[ShownLayer<'_>],
    into: &mut Vec<u8>,
) -> Result<(), NoMemory>
    requires { CanAppend runs.now layers.now }
    ensures video { OnOk result (into.new.items
        ≡ into.old.items ++ group_video (bytes_each layers.now)) }
    ensures kept { OnErr result (into.new.items ≡ into.old.items) }
{
    let before = into.len();
    match append_runs(runs, layers, into) {
        Ok(()) => Ok(()),
        Err(NoMemory) => {
            into.truncate(before);
            Err(NoMemory)
        }
    }
}

/// Appends the runs of these layers, in order. `taken` counts the bytes of each layer that were passed.
fn append_runs(
    runs: &[NamedRun],
    layers: &[ShownLayer<'_>],
    into: &mut Vec<u8>,
) -> Result<(), NoMemory>
    requires { CanAppend runs.now layers.now }
    ensures video { OnOk result (into.new.items
        ≡ into.old.items ++ group_video (bytes_each layers.now)) }
    ensures begins { Begins into.old.items into.new.items }
{
    let mut taken = [0; MAX_LAYERS];
    taken[0] = COUNT_BYTES + ENTRY_BYTES * runs.len();
    for run in runs {
        let layer = usize::from(run.layer);
        if layer >= layers.len() {
            continue;
        }
        taken[layer] = append_run(layers[layer].bytes, taken[layer], run.len, into)?;
    }
    Ok(())
}

/// Appends the bytes of a layer that a run has from here on, and answers where they end.
fn append_run(layer: &[u8], from: usize, len: u32, into: &mut Vec<u8>) -> Result<usize, NoMemory>
    requires { from + len ≤ length layer.now }
    ensures end { IfOk result (λ end. end ≡ from + len) }
    ensures bytes { OnOk result (into.new.items ≡ into.old.items ++ take len (drop from layer.now)) }
    ensures kept { OnErr result (into.new.items ≡ into.old.items) }
{
    let end = from + len as usize;
    into.extend_from_slice(&layer[from..end])?;
    Ok(end)
}
