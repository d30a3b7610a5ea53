//! The bytes of a group's layers, and its message.
ghost use Rattle.std.specs.Prelude.{◌≡◌, ◌≤◌, ◌<◌, ◌+◌, ◌^◌, ◌++◌, ◌==◌, [], All, length, OnOk, OnErr, if◌then◌else◌};
ghost use Rattle.pet_base.specs.declared.limits.TheConstants.{MAX_LAYERS};
ghost use Rattle.layer_split.specs.Layers as layers;
ghost use Rattle.layer_split.specs.Bytes.{Begins, table_of, run_part};

use crate::cut::{GroupCut, Run};
use pet_base::NoMemory;

/// Appends a layer's bytes. After a refusal the vector is as before.
pub fn layer_bytes(
    stream: &[u8],
    cut: &GroupCut,
    layer: u8,
    into: &mut Vec<u8>,
) -> Result<(), NoMemory>
    requires layer { layer < length cut.now.lengths }
    requires inside { All (λ run. run.at + run.len ≤ length stream.now) cut.now.runs }
    requires few { length cut.now.runs < 2 ^ 32 }
    ensures ok { OnOk result (into.new.items ≡ into.old.items
        ++ layers.layer_bytes stream.now cut.now.runs layer) }
    ensures kept { OnErr result (into.new.items ≡ into.old.items) }
{
    let before = into.len();
    match append_layer(stream, cut.runs.as_slice(), layer, into) {
        Ok(()) => Ok(()),
        Err(NoMemory) => {
            into.truncate(before);
            Err(NoMemory)
        }
    }
}

/// Appends the layers' bytes in order, each layer of odd length followed by one byte 0. After a refusal the vector is as
/// before.
pub fn message(stream: &[u8], cut: &GroupCut, into: &mut Vec<u8>) -> Result<(), NoMemory>
    requires inside { All (λ run. run.at + run.len ≤ length stream.now) cut.now.runs }
    requires lengths { cut.now.lengths ≡ layers.lengths_of cut.now.runs (length cut.now.lengths) }
    ensures ok { OnOk result (into.new.items ≡ into.old.items
        ++ layers.message stream.now cut.now.runs (length cut.now.lengths)) }
    ensures kept { OnErr result (into.new.items ≡ into.old.items) }
{
    message_by(stream, cut, 2, into)
}

/// The same in words of so many bytes, one or two: where a word has one byte, nothing follows a layer.
pub fn message_by(
    stream: &[u8],
    cut: &GroupCut,
    word: u32,
    into: &mut Vec<u8>,
) -> Result<(), NoMemory>
    requires word { 0 < word }
    requires inside { All (λ run. run.at + run.len ≤ length stream.now) cut.now.runs }
    requires lengths { cut.now.lengths ≡ layers.lengths_of cut.now.runs (length cut.now.lengths) }
    ensures ok { OnOk result (into.new.items ≡ into.old.items
        ++ layers.message_by word stream.now cut.now.runs (length cut.now.lengths)) }
    ensures kept { OnErr result (into.new.items ≡ into.old.items) }
{
    let before = into.len();
    match append_layers(
        stream,
        cut.runs.as_slice(),
        cut.lengths.as_slice(),
        word,
        into,
    ) {
        Ok(()) => Ok(()),
        Err(NoMemory) => {
            into.truncate(before);
            Err(NoMemory)
        }
    }
}

/// Appends the layers of these lengths, each in whole words.
fn append_layers(
    stream: &[u8],
    runs: &[Run],
    lengths: &[u32],
    word: u32,
    into: &mut Vec<u8>,
) -> Result<(), NoMemory>
    requires word { 0 < word }
    requires inside { All (λ run. run.at + run.len ≤ length stream.now) runs.now }
    requires lengths { lengths.now ≡ layers.lengths_of runs.now (length lengths.now) }
    requires few { length lengths.now ≤ MAX_LAYERS }
    ensures ok { OnOk result (into.new.items ≡ into.old.items
        ++ layers.message_by word stream.now runs.now (length lengths.now)) }
    ensures begins { Begins into.old.items into.new.items }
{
    for layer in 0..lengths.len() {
        append_padded(stream, runs, layer as u8, lengths[layer], word, into)?;
    }
    Ok(())
}

/// Appends a layer of this length in whole words.
fn append_padded(
    stream: &[u8],
    runs: &[Run],
    layer: u8,
    len: u32,
    word: u32,
    into: &mut Vec<u8>,
) -> Result<(), NoMemory>
    requires word { 0 < word }
    requires inside { All (λ run. run.at + run.len ≤ length stream.now) runs.now }
    requires len { len ≡ layers.layer_length runs.now layer }
    ensures ok { OnOk result (into.new.items ≡ into.old.items
        ++ layers.padded_by word (layers.layer_bytes stream.now runs.now layer)) }
    ensures begins { Begins into.old.items into.new.items }
{
    append_layer(stream, runs, layer, into)?;
    if len % word == 1 {
        into.push(0)?;
    }
    Ok(())
}

/// Appends a layer's bytes.
fn append_layer(stream: &[u8], runs: &[Run], layer: u8, into: &mut Vec<u8>) -> Result<(), NoMemory>
    requires inside { All (λ run. run.at + run.len ≤ length stream.now) runs.now }
    requires few { layer ≡ 0 → length runs.now < 2 ^ 32 }
    ensures ok { OnOk result (into.new.items ≡ into.old.items
        ++ layers.layer_bytes stream.now runs.now layer) }
    ensures begins { Begins into.old.items into.new.items }
{
    append_table(runs, layer, into)?;
    for run in runs {
        append_run(stream, *run, layer, into)?;
    }
    Ok(())
}

/// Appends the run table, where the layer is layer 0.
fn append_table(runs: &[Run], layer: u8, into: &mut Vec<u8>) -> Result<(), NoMemory>
    requires few { layer ≡ 0 → length runs.now < 2 ^ 32 }
    ensures ok { OnOk result (into.new.items ≡ into.old.items ++ table_of runs.now layer) }
    ensures begins { Begins into.old.items into.new.items }
{
    if layer != 0 {
        return Ok(());
    }
    into.extend_from_slice(&(runs.len() as u32).to_be_bytes())?;
    for run in runs {
        append_entry(*run, into)?;
    }
    Ok(())
}

/// Appends a run's entry in the run table.
fn append_entry(run: Run, into: &mut Vec<u8>) -> Result<(), NoMemory>
    ensures ok { OnOk result (into.new.items ≡ into.old.items ++ layers.run_entry run) }
    ensures begins { Begins into.old.items into.new.items }
{
    into.push(run.layer)?;
    into.extend_from_slice(&run.len.to_be_bytes())?;
    Ok(())
}

/// Appends a run's bytes, where it is one of the layer.
fn append_run(stream: &[u8], run: Run, layer: u8, into: &mut Vec<u8>) -> Result<(), NoMemory>
    requires { run.at + run.len ≤ length stream.now }
    ensures ok { OnOk result (into.new.items ≡ into.old.items ++ run_part stream.now layer run) }
    ensures kept { OnErr result (into.new.items ≡ into.old.items) }
{
    if run.layer != layer {
        return Ok(());
    }
    let from = run.at as usize;
    into.extend_from_slice(&stream[from..from + run.len as usize])?;
    Ok(())
}
