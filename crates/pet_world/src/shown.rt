//! The layers that an event shows, with the number of its receiver.
ghost use Rattle.std.specs.Prelude.{◌≡◌, ◌==◌, ◌+◌, ◌<◌, ◌≤◌, ◌++◌, cond, [], ◌∷◌, length, map, sum_by, vec_len, vec_capacity};
ghost use Rattle.std.specs.Int.{bit_at};
ghost use Rattle.pet_base.specs.declared.limits.TheConstants.{MAX_LAYERS, MAX_GROUPS};
ghost use Rattle.pet_world.specs.ReceivedSets.{shown_to};
ghost use Rattle.packet_met.specs.Records.{layers_shown};
ghost use Rattle.packet_met.specs.EncodedSession.{encoded_session};

use field_rows::Rows;
use packet_verdicts::{LayerSet, Verdict};
use pet_base::{MAX_LAYERS, Shown};
use pet_encode::Encoder;

/// The layers of a group that a verdict shows. There is room for them.
pub(crate) fn shown_by_verdict(
    room: Vec<Shown>,
    receiver: u8,
    group: u32,
    verdict: Verdict,
) -> Vec<Shown>
    requires empty { room.items ≡ [] }
    requires none { vec_len room ≡ 0 }
    requires room { MAX_LAYERS ≤ vec_capacity room }
    ensures { result.items ≡ shown_to receiver (map (λ layer. (group, layer)) (layers_shown verdict)) }
{
    match verdict {
        Verdict::Kept(layers) => shown_in(room, receiver, group, layers),
        _ => room,
    }
}

/// The layers of a group in a set. There is room for them.
fn shown_in(room: Vec<Shown>, receiver: u8, group: u32, layers: LayerSet) -> Vec<Shown>
    requires empty { room.items ≡ [] }
    requires none { vec_len room ≡ 0 }
    requires room { MAX_LAYERS ≤ vec_capacity room }
    ensures { result.items ≡ shown_to receiver (map (λ layer. (group, layer)) (layers_shown (Verdict.Kept layers))) }
{
    let mut shown = room;
    for layer in 0..MAX_LAYERS as u8 {
        put_if(
            &mut shown,
            Shown {
                receiver,
                group,
                layer,
            },
            layers.has(layer),
        );
    }
    shown
}

/// The layers of pairs of a group and a layer. There is room for them.
pub(crate) fn shown_of_pairs(room: Vec<Shown>, receiver: u8, pairs: &[(u32, u8)]) -> Vec<Shown>
    requires empty { room.items ≡ [] }
    requires none { vec_len room ≡ 0 }
    requires room { length pairs.now ≤ vec_capacity room }
    ensures { result.items ≡ shown_to receiver (map (λ s. (s.0, s.1)) pairs.now) }
{
    let mut shown = room;
    for pair in pairs {
        shown.push_reserved(Shown {
            receiver,
            group: pair.0,
            layer: pair.1,
        });
    }
    shown
}

/// Puts a layer at the end where it is wanted. There is room for it.
fn put_if(shown: &mut Vec<Shown>, layer: Shown, wanted: bool)
    requires { vec_len shown.old < vec_capacity shown.old }
    ensures items { shown.new.items ≡ shown.old.items ++ cond wanted (layer ∷ []) [] }
    ensures len { vec_len shown.new ≤ vec_len shown.old + 1 }
    ensures room { vec_capacity shown.new ≡ vec_capacity shown.old }
{
    if wanted {
        shown.push_reserved(layer);
    }
}

/// How many layers the groups of a session have, all together.
pub(crate) fn most_layers<F: Rows>(encoders: &[Encoder<'_, F>]) -> usize
    requires { length encoders.now ≤ MAX_GROUPS }
    ensures { result ≡ sum_by (λ g. length g.layers) (encoded_session encoders.now).groups }
{
    let mut most = 0;
    for encoder in encoders {
        most += encoder.header().table.layers().len();
    }
    most
}
