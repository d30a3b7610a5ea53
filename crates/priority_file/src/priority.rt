//! A priority: a number of packets, and layers of kinds that each need some of them.
ghost use Rattle.std.specs.Prelude.{◌<◌, ◌≡◌, length, ℕ, ◌==◌, nat_lt, not, ◌&&◌, ◌||◌, count_by, if◌then◌else◌, Some, None, true, false, position, option_and_then};
ghost use Rattle.std.specs.List.{list_all, position_or_len, range_with_len};
ghost use Rattle.pet_base.specs.declared.Kind.{Kind};
ghost use Rattle.priority_file.specs.declared.kinds.TheConstants.{LAST_PLACE};
ghost use Rattle.priority_file.specs.Kinds.{has_places, place_index, index_of, has_class, has_kind, all_kinds};
ghost use Rattle.priority_file.specs.Priority.{layers_with, layers_at, has_places_once, head_is_first, is_need, has_each_kind_once, has_no_place_twice, is_priority, layer_of};

use crate::bounds::{LONGEST_NAME, is_packets};
use crate::kinds::{Class, KindSet, LAST_PLACE};
use arrayvec::{ArrayString, ArrayVec};
use pet_base::{Kind, MAX_LAYERS};
use std::marker::Model;

/// A layer: its name, the kinds and places in it, and how many packets show it.
#[derive(Drop, Default)]
pub struct LayerRule {
    /// 1 to `LONGEST_NAME` bytes, in a priority that was read.
    pub name: ArrayString<LONGEST_NAME>,
    pub kinds: KindSet,
    /// From 1 to the number of packets, in a priority.
    pub need: u16,
}

impl Model for LayerRule {
    ghost use Rattle.priority_file.specs.Priority.{Rule};

    ghost Value = { Rule };

    ghost view = { λ r. record { name = r.name.bytes; kinds = r.kinds.bits; need = r.need } };
}

/// A number of packets and layers. Each kind is in exactly one layer, Head in layer 0, and no place is in two layers.
#[derive(Drop)]
pub struct Priority {
    /// From 1 to `MAX_PACKETS`.
    pub packets: u16,
    pub layers: ArrayVec<LayerRule, MAX_LAYERS>,
}

impl Model for Priority {
    ghost use Rattle.std.specs.Prelude.{IsTrue};
    ghost use Rattle.priority_file.specs.Priority.{Priorities, is_priority};

    ghost Value = { Priorities };

    ghost view = { λ p. record { packets = p.packets; layers = p.layers.items } };

    ghost invariant = { λ p. IsTrue (is_priority (record { packets = p.packets; layers = p.layers.items })) };
}

impl Priority {
    ghost use Rattle.priority_file.specs.Priority.{Priorities, is_priority, layer_of, lists_place, IsOnlyLayerWith, IsOnlyLayerAt};

    /// A priority, or `None` exactly where a bound is broken. It takes no memory.
    pub fn new(packets: u16, layers: ArrayVec<LayerRule, MAX_LAYERS>) -> Option<Priority>
        ensures { let p : Priorities = record { packets = packets; layers = layers.items } in
            result ≡ (if is_priority p then Some p else None) }
    {
        if keeps_bounds(packets, layers.as_slice()) {
            Some(Priority { packets, layers })
        } else {
            None
        }
    }

    /// The number of the layer of a piece, from 0. A P or B picture has a place, its number in its group counted from 1 in
    /// stream order, and goes to the layer that lists the place where one does. Every other piece goes to the layer of its
    /// kind, and its place is not looked at.
    pub fn layer_of(&self, kind: Kind, place: u32) -> u8
        requires place { has_places kind ≡ true → 0 < place }
        ensures value { result ≡ layer_of self.now kind place }
        ensures within { result < length self.now.layers }
        ensures listed { lists_place kind place self.now.layers ≡ true
            → IsOnlyLayerAt kind place self.now.layers result }
        ensures unlisted { lists_place kind place self.now.layers ≡ false
            → IsOnlyLayerWith kind self.now.layers result }
    {
        let layers = self.layers.as_slice();
        match first_at(layers, kind, place).or(first_with(layers, Class::of(kind))) {
            Some(layer) => layer as u8,
            None => unreachable!(),
        }
    }
}

/// The first layer that lists the place.
fn first_at(layers: &[LayerRule], kind: Kind, place: u32) -> Option<usize>
    ensures { result ≡ option_and_then (λ i. position (λ r. has_class r.kinds i) layers.now)
        (place_index kind place) }
{
    let class = Class::at(kind, place)?;
    first_with(layers, class)
}

fn first_with(layers: &[LayerRule], class: Class) -> Option<usize>
    ensures { result ≡ position (λ r. has_class r.kinds class) layers.now }
{
    layers.iter().position(|rule| rule.kinds.has_class(class))
}

fn keeps_bounds(packets: u16, layers: &[LayerRule]) -> bool
    ensures { result ≡ is_priority (record { packets = packets; layers = layers.now }) }
{
    is_packets(u64::from(packets))
        && needs_fit(packets, layers)
        && has_each_kind_once(layers)
        && has_no_place_twice(layers)
        && begins_with_head(layers)
}

fn needs_fit(packets: u16, layers: &[LayerRule]) -> bool
    ensures { result ≡ list_all (λ r. is_need packets r.need) layers.now }
{
    layers
        .iter()
        .all(|rule| rule.need >= 1 && rule.need <= packets)
}

#[tactic(auto, unfolding(crate::specs::Priority::has_each_kind_once))]
fn has_each_kind_once(layers: &[LayerRule]) -> bool
    ensures { result ≡ has_each_kind_once layers.now }
{
    has_once(layers, Kind::Head)
        && has_once(layers, Kind::I)
        && has_once(layers, Kind::P)
        && has_once(layers, Kind::B)
        && has_once(layers, Kind::D)
}

fn has_once(layers: &[LayerRule], kind: Kind) -> bool
    ensures { result ≡ (layers_with kind layers.now == 1) }
{
    layers_of_class(layers, Class::of(kind)) == 1
}

#[tactic(auto, unfolding(crate::specs::Priority::has_no_place_twice))]
fn has_no_place_twice(layers: &[LayerRule]) -> bool
    ensures { result ≡ has_no_place_twice layers.now }
{
    have_places_once(layers)
}

fn have_places_once(layers: &[LayerRule]) -> bool
    ensures { result ≡ list_all (has_places_once layers.now) (range_with_len 1 LAST_PLACE) }
{
    (1..LAST_PLACE + 1).all(|place| has_places_once(layers, place))
}

fn has_places_once(layers: &[LayerRule], place: u8) -> bool
    ensures { result ≡ has_places_once layers.now place }
{
    layers_at(layers, Kind::P, place) <= 1 && layers_at(layers, Kind::B, place) <= 1
}

fn layers_at(layers: &[LayerRule], kind: Kind, place: u8) -> usize
    ensures { result ≡ layers_at kind place layers.now }
{
    match Class::at(kind, place as u32) {
        Some(class) => layers_of_class(layers, class),
        None => 0,
    }
}

fn layers_of_class(layers: &[LayerRule], class: Class) -> usize
    ensures { result ≡ count_by (λ r. has_class r.kinds class) layers.now }
{
    layers
        .iter()
        .filter(|rule| rule.kinds.has_class(class))
        .count()
}

fn begins_with_head(layers: &[LayerRule]) -> bool
    ensures { result ≡ head_is_first layers.now }
{
    match layers.first() {
        Some(rule) => rule.kinds.has(Kind::Head),
        None => false,
    }
}
