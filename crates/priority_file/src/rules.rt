//! The layers that an accepted file stands for.
ghost use Rattle.pet_base.specs.declared.limits.TheConstants.{MAX_LAYERS, MAX_PACKETS};
ghost use Rattle.priority_file.specs.declared.bounds.TheConstants.{LONGEST_NAME};
ghost use Rattle.std.specs.Prelude.{◌≡◌, ◌<◌, ◌≤◌, map, false, true, length, not};
ghost use Rattle.std.specs.List.{list_any};
ghost use Rattle.arrayvec.specs.ArrayVec.{array_vec_len};
ghost use Rattle.priority_file.specs.Kinds.{bits_of};
ghost use Rattle.priority_file.specs.Refusals.{rule_of, kinds_with_d};
ghost use Rattle.priority_file.specs.Bounds.{is_need_out_of_range, is_name};

use crate::bounds::{LONGEST_NAME, need_in};
use crate::draft::LayerDraft;
use crate::kinds::{Class, KindSet, lists};
use crate::priority::LayerRule;
use arrayvec::{ArrayString, ArrayVec};
use pet_base::{Kind, MAX_LAYERS};

/// The layers, with D beside I where the file lists it nowhere.
pub fn rules_of(
    packets: u64,
    d_is_listed: bool,
    layers: &[LayerDraft],
) -> ArrayVec<LayerRule, MAX_LAYERS>
    requires packets { packets ≤ MAX_PACKETS }
    requires few { length layers.now ≤ MAX_LAYERS }
    requires needs { list_any (λ l. is_need_out_of_range packets l.need) layers.now ≡ false }
    requires names { list_any (λ l. not (is_name l.name)) layers.now ≡ false }
    ensures { result.items ≡ map (rule_of packets d_is_listed) layers.now }
{
    let mut rules = ArrayVec::new();
    for layer in layers {
        rules.push(rule_of(packets, d_is_listed, layer));
    }
    rules
}

fn rule_of(packets: u64, d_is_listed: bool, layer: &LayerDraft) -> LayerRule
    requires packets { packets ≤ MAX_PACKETS }
    requires need { is_need_out_of_range packets layer.now.need ≡ false }
    requires name { is_name layer.now.name ≡ true }
    ensures { result ≡ rule_of packets d_is_listed layer.now }
{
    let need = need_in(packets, layer.need) as u16;
    let kinds = set_of(d_is_listed, layer.kinds.as_slice());
    let name = name_of(layer.name.as_str());
    LayerRule { name, kinds, need }
}

fn name_of(text: &str) -> ArrayString<LONGEST_NAME>
    requires { length text.now ≤ LONGEST_NAME }
    ensures { result.bytes ≡ text.now }
{
    let mut name = ArrayString::new();
    name.push_str(text);
    name
}

fn set_of(d_is_listed: bool, kinds: &[Class]) -> KindSet
    ensures { result.bits ≡ bits_of (kinds_with_d d_is_listed kinds.now) }
{
    let set = KindSet::of(kinds);
    if !d_is_listed && lists(kinds, Class::of(Kind::I)) {
        set.with(Class::of(Kind::D))
    } else {
        set
    }
}
