//! A priority file as it is written, before its numbers and names are tested.
ghost use Rattle.std.specs.Prelude.{◌≡◌, codes, option_map, option_and_then};
ghost use Rattle.toml.specs.Data.{get_member};
ghost use Rattle.toml.specs.View.{view, table_view, array_view, items_view};
ghost use Rattle.priority_file.specs.Draft.{class_of, each_of, need_of, layer_in, layer_of, file_text};
ghost use Rattle.priority_file.specs.inside.Stages.{Gives};

use crate::fault::PriorityFault;
use crate::kinds::{Class, class_named};
use crate::members::{array_at, has_key, integer_at, text_at};
use std::alloc::Global;
use std::marker::Model;
use toml::{Table, Value};

/// A need as it is written.
#[derive(Clone, Copy)]
pub enum Need {
    Packets(i64),
    Percent(i64),
}

/// A layer as it is written.
#[derive(Drop)]
pub struct LayerDraft {
    pub name: String,
    pub kinds: Vec<Class>,
    pub need: Need,
}

impl Model for LayerDraft {
    ghost use Rattle.std.specs.Prelude.{string_bytes};
    ghost use Rattle.priority_file.specs.Draft.{LayerText};

    ghost Value = { LayerText };

    ghost view = { λ l. record { name = string_bytes l.name; kinds = l.kinds.items; need = l.need } };
}

/// A priority file as it is written.
#[derive(Drop)]
pub struct Draft {
    pub packets: i64,
    pub layers: Vec<LayerDraft>,
}

impl Model for Draft {
    ghost use Rattle.priority_file.specs.Draft.{FileText};

    ghost Value = { FileText };

    ghost view = { λ d. record { packets = d.packets; layers = d.layers.items } };
}

/// The draft of a document, or `WrongType` exactly where a value has another type.
pub fn draft_of(alloc: Global, document: &Table) -> Result<Draft, PriorityFault>
    ensures { Gives (λ d. d) result (file_text (table_view document.now)) }
{
    let packets = wanted(integer_at(document, "packets"))?;
    let Some(tables) = array_at(document, "layer") else {
        return Err(PriorityFault::WrongType);
    };
    let layers = layers_of(alloc, tables.as_slice())?;
    Ok(Draft { packets, layers })
}

fn wanted(value: Option<i64>) -> Result<i64, PriorityFault>
    ensures { Gives (λ n. n) result value }
{
    value.ok_or(PriorityFault::WrongType)
}

fn layers_of(alloc: Global, tables: &[Value]) -> Result<Vec<LayerDraft>, PriorityFault>
    ensures { Gives (λ v. v.items) result (each_of layer_of (items_view tables.now)) }
{
    let mut layers = Vec::new(alloc);
    for table in tables {
        let layer = layer_of(alloc, table)?;
        layers.push(layer)?;
    }
    Ok(layers)
}

fn layer_of(alloc: Global, value: &Value) -> Result<LayerDraft, PriorityFault>
    ensures { Gives (λ l. l) result (layer_of (view value.now)) }
{
    match value.as_table() {
        Some(table) => layer_in(alloc, table),
        None => Err(PriorityFault::WrongType),
    }
}

fn layer_in(alloc: Global, table: &Table) -> Result<LayerDraft, PriorityFault>
    ensures { Gives (λ l. l) result (layer_in (table_view table.now)) }
{
    let Some(text) = text_at(table, "name") else {
        return Err(PriorityFault::WrongType);
    };
    let Some(words) = array_at(table, "kinds") else {
        return Err(PriorityFault::WrongType);
    };
    let kinds = kinds_of(alloc, words.as_slice())?;
    let need = need_of(table)?;
    let name = String::from_str(alloc, text)?;
    Ok(LayerDraft { name, kinds, need })
}

fn kinds_of(alloc: Global, words: &[Value]) -> Result<Vec<Class>, PriorityFault>
    ensures { Gives (λ v. v.items) result (each_of class_of (items_view words.now)) }
{
    let mut kinds = Vec::new(alloc);
    for word in words {
        let Some(class) = class_of(word) else {
            return Err(PriorityFault::WrongType);
        };
        kinds.push(class)?;
    }
    Ok(kinds)
}

fn class_of(value: &Value) -> Option<Class>
    ensures { result ≡ class_of (view value.now) }
{
    match value.as_str() {
        Some(word) => class_named(word),
        None => None,
    }
}

fn need_of(table: &Table) -> Result<Need, PriorityFault>
    ensures { Gives (λ n. n) result (need_of (table_view table.now)) }
{
    if has_key(table, "need") {
        let packets = wanted(integer_at(table, "need"))?;
        Ok(Need::Packets(packets))
    } else {
        let percent = wanted(integer_at(table, "percent"))?;
        Ok(Need::Percent(percent))
    }
}
