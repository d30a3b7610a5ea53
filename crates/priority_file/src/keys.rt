//! Which keys a priority file has, and which it lacks.
ghost use Rattle.std.specs.Prelude.{◌≡◌, not, ◌&&◌, ◌||◌, string_bytes, bytes_eq, position, is_none, map};
ghost use Rattle.std.specs.List.{list_any};
ghost use Rattle.std.specs.BTreeMap.{keys};
ghost use Rattle.toml.specs.View.{view, table_view, items_view};
ghost use Rattle.priority_file.specs.Document.{has_other_key, file_keys, layer_keys, layers_of, tables_of, layer_has_unknown_key, has_two_needs, has_file_keys, has_name_and_kinds, has_a_need, has_unknown_key, layer_misses_key, misses_key, on_table};

use crate::kinds::position_of;
use crate::members::{array_at, has_key};
use toml::{Table, Value};

/// The keys of a priority file.
const FILE_KEYS: [&str; 2] = ["packets", "layer"];

/// The keys of a layer.
const LAYER_KEYS: [&str; 4] = ["name", "kinds", "need", "percent"];

/// Whether the document or a layer has a key that is not known there, or a layer has both `need` and `percent`.
pub fn has_unknown_key(document: &Table) -> bool
    ensures { result ≡ has_unknown_key (table_view document.now) }
{
    has_other_file_key(document) || layers_have_unknown_key(document)
}

/// Whether the document or a layer lacks a key.
pub fn misses_key(document: &Table) -> bool
    ensures { result ≡ misses_key (table_view document.now) }
{
    !has_file_keys(document) || layers_miss_key(document)
}

fn has_file_keys(document: &Table) -> bool
    ensures { result ≡ has_file_keys (table_view document.now) }
{
    has_key(document, "packets") && has_key(document, "layer")
}

fn layers_have_unknown_key(document: &Table) -> bool
    ensures { result ≡ list_any layer_has_unknown_key (layers_of (table_view document.now)) }
{
    any_has_unknown_key(layers_of(document))
}

fn layers_miss_key(document: &Table) -> bool
    ensures { result ≡ list_any layer_misses_key (layers_of (table_view document.now)) }
{
    any_misses_key(layers_of(document))
}

fn layers_of(document: &Table) -> &[Value]
    ensures { tables_of (items_view result.now) ≡ layers_of (table_view document.now) }
{
    match array_at(document, "layer") {
        Some(values) => values.as_slice(),
        None => &[],
    }
}

fn any_has_unknown_key(layers: &[Value]) -> bool
    ensures { result ≡ list_any (λ v. on_table layer_has_unknown_key (view v)) layers.now }
{
    layers.iter().any(has_unknown_layer_key)
}

fn has_unknown_layer_key(layer: &Value) -> bool
    ensures { result ≡ on_table layer_has_unknown_key (view layer.now) }
{
    match layer.as_table() {
        Some(table) => table_has_unknown_key(table),
        None => false,
    }
}

fn table_has_unknown_key(table: &Table) -> bool
    ensures { result ≡ layer_has_unknown_key (table_view table.now) }
{
    has_other_layer_key(table) || has_two_needs(table)
}

fn has_two_needs(table: &Table) -> bool
    ensures { result ≡ has_two_needs (table_view table.now) }
{
    has_key(table, "need") && has_key(table, "percent")
}

fn any_misses_key(layers: &[Value]) -> bool
    ensures { result ≡ list_any (λ v. on_table layer_misses_key (view v)) layers.now }
{
    layers.iter().any(misses_layer_key)
}

fn misses_layer_key(layer: &Value) -> bool
    ensures { result ≡ on_table layer_misses_key (view layer.now) }
{
    match layer.as_table() {
        Some(table) => table_misses_key(table),
        None => false,
    }
}

fn table_misses_key(table: &Table) -> bool
    ensures { result ≡ layer_misses_key (table_view table.now) }
{
    !has_name_and_kinds(table) || !has_a_need(table)
}

fn has_name_and_kinds(table: &Table) -> bool
    ensures { result ≡ has_name_and_kinds (table_view table.now) }
{
    has_key(table, "name") && has_key(table, "kinds")
}

fn has_a_need(table: &Table) -> bool
    ensures { result ≡ has_a_need (table_view table.now) }
{
    has_key(table, "need") || has_key(table, "percent")
}

fn has_other_file_key(table: &Table) -> bool
    ensures { result ≡ has_other_key file_keys (table_view table.now) }
{
    has_other_key(table, &FILE_KEYS)
}

fn has_other_layer_key(table: &Table) -> bool
    ensures { result ≡ has_other_key layer_keys (table_view table.now) }
{
    has_other_key(table, &LAYER_KEYS)
}

fn has_other_key(table: &Table, known: &[&str]) -> bool
    ensures { result ≡ has_other_key (map (λ w. w.now) known.now) (table_view table.now) }
{
    any_other_key(table, known)
}

fn any_other_key(table: &Table, known: &[&str]) -> bool
    ensures { result ≡ list_any (λ k. is_none (position (λ w. bytes_eq (string_bytes k) w.now) known.now))
        (keys table.now) }
{
    table
        .keys()
        .any(|key| position_of(known, key.as_str()).is_none())
}
