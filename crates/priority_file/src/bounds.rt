//! The bounds of a priority file: its numbers, its names and its kinds.
ghost use Rattle.std.specs.Prelude.{◌≡◌, ℕ, not, ◌&&◌, ◌||◌, nat_lt, nat_eq, ◌==◌, List, flat_map, IfOk, bytes_eq};
ghost use Rattle.std.specs.List.{list_any, list_all};
ghost use Rattle.priority_file.specs.declared.bounds.TheConstants.{LONGEST_NAME};
ghost use Rattle.priority_file.specs.declared.kinds.TheConstants.{LAST_PLACE};
ghost use Rattle.priority_file.specs.Kinds.{index_of, lists, required_kinds};
ghost use Rattle.priority_file.specs.Priority.{is_packets, is_need};
ghost use Rattle.priority_file.specs.Bounds.{count_of, need_in, is_need_out_of_range, is_name_byte, is_name, has_repeat, kinds_of_first};

use crate::draft::{LayerDraft, Need};
use crate::kinds::{Class, LAST_PLACE, lists};
use pet_base::{Kind, MAX_PACKETS};
use std::alloc::{AllocError, Global};

/// The most bytes of a layer's name.
pub const LONGEST_NAME: usize = 16;

/// The numbers of the bounds that are this crate's own. Definitions name the constants alone, so without these clauses every
/// proof would hold of other numbers too. It does nothing.
pub fn bounds_are()
    ensures longest_name { LONGEST_NAME ≡ 16 }
    ensures last_place { LAST_PLACE ≡ 9 }
{}

/// The number, and 0 for one below zero, which is in no range here.
pub fn count_of(number: i64) -> u64
    ensures { result ≡ count_of number }
{
    if number < 0 { 0 } else { number as u64 }
}

/// Whether a group may have so many packets.
pub fn is_packets(number: u64) -> bool
    ensures { result ≡ is_packets number }
{
    number > 0 && number <= MAX_PACKETS as u64
}

fn is_need(packets: u64, number: u64) -> bool
    ensures { result ≡ is_need packets number }
{
    number > 0 && number <= packets
}

fn is_need_out_of_range(packets: u64, need: Need) -> bool
    ensures { result ≡ is_need_out_of_range packets need }
{
    match need {
        Need::Packets(number) => !is_need(packets, count_of(number)),
        Need::Percent(percent) => !is_need(100, count_of(percent)),
    }
}

/// Whether a need is out of range.
pub fn any_need_out_of_range(packets: u64, layers: &[LayerDraft]) -> bool
    ensures { result ≡ list_any (λ l. is_need_out_of_range packets l.need) layers.now }
{
    layers
        .iter()
        .any(|layer| is_need_out_of_range(packets, layer.need))
}

/// The need in packets. 128 bits hold it whatever numbers a file has.
pub fn need_in(packets: u64, need: Need) -> u128
    ensures { result ≡ need_in packets need }
{
    match need {
        Need::Packets(number) => count_of(number) as u128,
        Need::Percent(percent) => (count_of(percent) as u128 * packets as u128 / 100).max(1),
    }
}

fn is_name_byte(byte: u8) -> bool
    ensures { result ≡ is_name_byte byte }
{
    byte.is_ascii_alphanumeric() || byte == b'-' || byte == b'_' || byte == b'+'
}

fn is_name(name: &str) -> bool
    ensures { result ≡ is_name name.now }
{
    name.len() > 0 && name.len() <= LONGEST_NAME && are_name_bytes(name.as_bytes())
}

fn are_name_bytes(bytes: &[u8]) -> bool
    ensures { result ≡ list_all is_name_byte bytes.now }
{
    bytes.iter().copied().all(is_name_byte)
}

/// Whether a name is none that a layer may have.
pub fn any_bad_name(layers: &[LayerDraft]) -> bool
    ensures { result ≡ list_any (λ l. not (is_name l.name)) layers.now }
{
    layers.iter().any(|layer| !is_name(layer.name.as_str()))
}

fn any_named(layers: &[LayerDraft], name: &str) -> bool
    ensures { result ≡ list_any (λ l. bytes_eq name.now l.name) layers.now }
{
    layers.iter().any(|layer| name == layer.name.as_str())
}

/// Whether two layers have one name.
pub fn any_name_twice(layers: &[LayerDraft]) -> bool
    ensures { result ≡ has_repeat (λ l m. bytes_eq l.name m.name) layers.now }
{
    for (i, layer) in layers.iter().enumerate() {
        if any_named(&layers[i + 1..], layer.name.as_str()) {
            return true;
        }
    }
    false
}

/// The kinds and places that the layers list, on end.
pub fn listed_kinds(alloc: Global, layers: &[LayerDraft]) -> Result<Vec<Class>, AllocError>
    ensures { IfOk result (λ v. v.items ≡ flat_map (λ l. l.kinds) layers.now) }
{
    let mut kinds = Vec::new(alloc);
    for layer in layers {
        kinds.extend_from_slice(layer.kinds.as_slice())?;
    }
    Ok(kinds)
}

/// Whether a kind or a place is listed twice.
pub fn any_kind_twice(kinds: &[Class]) -> bool
    ensures { result ≡ has_repeat nat_eq kinds.now }
{
    for (i, kind) in kinds.iter().enumerate() {
        if lists(&kinds[i + 1..], *kind) {
            return true;
        }
    }
    false
}

/// Whether a kind other than D is not listed.
pub fn misses_kind(kinds: &[Class]) -> bool
    ensures { result ≡ list_any (λ k. not (lists (index_of k) kinds.now)) required_kinds }
{
    [Kind::Head, Kind::I, Kind::P, Kind::B]
        .iter()
        .any(|kind| !lists(kinds, Class::of(*kind)))
}

/// Whether the first layer lists Head.
pub fn begins_with_head(layers: &[LayerDraft]) -> bool
    ensures { result ≡ lists (index_of Kind.Head) (kinds_of_first layers.now) }
{
    match layers.first() {
        Some(layer) => lists(layer.kinds.as_slice(), Class::of(Kind::Head)),
        None => false,
    }
}
