//! A layer's size, and the words and bytes of layers.
ghost use Rattle.std.specs.Prelude.{◌≡◌, ◌<◌, ◌≤◌, ◌^◌, length, sum_by};
ghost use Rattle.stripe_plan.specs.Layers.{words_of, words_before};
ghost use Rattle.stripe_plan.specs.Sizes.{bytes_of};

use pet_base::MAX_LAYERS;

/// How long a layer is, and how many packets it needs.
#[derive(Clone, Copy, Debug, Default, PartialEq, Eq)]
pub struct LayerSize {
    /// The layer's bytes, 0 for an empty layer.
    pub length: u32,
    /// The packets that the layer needs, at least 1 in a table.
    pub need: u16,
}

/// How many words a layer has.
pub fn layer_words(layer: &LayerSize) -> u32
    ensures { result ≡ words_of layer.now }
{
    layer.length.div_ceil(2)
}

/// How many words the layers have.
pub(crate) fn total_words(layers: &[LayerSize]) -> u32
    requires { sum_by words_of layers.now < 2 ^ 32 }
    ensures { result ≡ sum_by words_of layers.now }
{
    layers.iter().map(|layer| layer_words(layer)).sum()
}

/// How many words stand before a layer, which is at most the number of layers.
pub fn first_word(layers: &[LayerSize], layer: usize) -> u32
    requires few { sum_by words_of layers.now < 2 ^ 32 }
    requires known { layer ≤ length layers.now }
    ensures { result ≡ words_before layers.now layer }
{
    total_words(&layers[..layer])
}

/// The bytes of the layers.
pub(crate) fn total_length(layers: &[LayerSize]) -> u64
    requires few { length layers.now ≤ MAX_LAYERS }
    ensures { result ≡ bytes_of layers.now }
{
    let mut total = 0;
    for layer in layers {
        total += u64::from(layer.length);
    }
    total
}
