//! The plan's numbers, and the way over its stripes.
ghost use Rattle.std.specs.Prelude.{◌≡◌, ℕ, ◌+◌, ◌-◌, ◌*◌, ◌<◌, ◌≤◌, List, ◌∷◌, length, slice_get, IfSome};
ghost use Rattle.stripe_plan.specs.Layers.{needs_of, bound_of, plan_ends, plan_stripes, stripes_from, count_of, counts_of, words_before};
ghost use Rattle.stripe_plan.specs.Stripes.{IsLongest, IsPartition, IsPlan};
ghost use Rattle.stripe_plan.specs.Counts.{IsLongestMeeting};
ghost use Rattle.stripe_plan.specs.Sizes.{IsTable, datagram_length_of, length_by};
ghost use Rattle.pet_base.specs.declared.limits.TheConstants.{MAX_DATAGRAM};

use crate::Table;
use crate::bounds::BOUNDS;
use crate::layer::layer_words;
use crate::longest::longest_end;
use crate::runs::{frame_length, plan_counts, plan_len};
use arrayvec::ArrayVec;
use pet_base::MAX_LAYERS;

/// The number of stripes of the plan. No respecting partition has fewer.
pub fn stripes(table: &Table) -> u32
    ensures plan { result ≡ length (plan_ends table.now.layers) }
    ensures listed { result ≡ length (plan_stripes table.now.layers) }
    ensures is_plan { IsPlan (needs_of table.now.layers) 0 (plan_ends table.now.layers) }
    ensures fewest { (ends : List ℕ) → IsPartition (needs_of table.now.layers) 0 ends
        → result ≤ length ends }
    ensures bounded { result ≤ bound_of table.now.layers }
{
    plan_len(table.layers())
}

/// The end of the longest respecting stripe that starts at the word `at`, which is below the number of words.
///
/// So a caller goes over the plan's stripes: from the word 0, and from each stripe's end on, up to the number of words.
pub fn next_start(table: &Table, at: u32) -> u32
    requires { at < length (needs_of table.now.layers) }
    ensures longest { IsLongest (needs_of table.now.layers) at result }
    ensures next { stripes_from table.now.layers at
        ≡ (at, result - at) ∷ stripes_from table.now.layers result }
    ensures short { result - at ≤ table.now.packets }
{
    longest_end(table.layers(), at)
}

/// How many packets show each layer, in the order of the layers: the greatest length of a stripe of the plan that has a word
/// of it, and 1 for a layer without words.
pub fn counts(table: &Table) -> ArrayVec<u16, MAX_LAYERS>
    ensures counts { result.items ≡ counts_of table.now.layers }
    ensures bounds { IsTable table.now.packets table.now.layers }
{
    plan_counts(table.layers())
}

/// How many packets show the layer: the greatest length of a stripe of the plan that has a word of it, and 1 for a layer
/// without words. `layer` is below the number of layers.
pub fn count(table: &Table, layer: u8) -> u16
    requires { layer < length table.now.layers }
    ensures count { result ≡ count_of table.now.layers layer }
    ensures greatest { words_before table.now.layers layer < words_before table.now.layers (layer + 1)
        → IsLongestMeeting (plan_stripes table.now.layers) (words_before table.now.layers layer) (words_before table.now.layers (layer + 1)) result }
    ensures empty { words_before table.now.layers (layer + 1) ≡ words_before table.now.layers layer
        → result ≡ 1 }
    ensures some { 0 < result }
    ensures needed { IfSome (slice_get table.now.layers layer) (λ size. result ≤ size.need) }
{
    counts(table)[usize::from(layer)]
}

/// The stripes that the layers would have if each were cut for itself: the sum of their words over their needs, each
/// rounded up.
pub fn bound(table: &Table) -> u32
    ensures { result ≡ bound_of table.now.layers }
{
    let mut total = 0;
    for layer in table.layers() {
        total += layer_words(layer).div_ceil(u32::from(layer.need));
    }
    total
}

/// The length of the table's datagrams in bytes, at most 65,000.
pub fn datagram_length(table: &Table) -> u32
    ensures length { result ≡ datagram_length_of table.now.layers }
    ensures narrow { result ≤ MAX_DATAGRAM }
{
    datagram_length_by(table, 2)
}

/// The length of datagrams that have `word` bytes for each stripe of the table's plan, at most 65,000.
pub fn datagram_length_by(table: &Table, word: u32) -> u32
    requires { word ≤ 2 }
    ensures length { result ≡ length_by word BOUNDS.bare table.now.layers }
    ensures narrow { result ≤ MAX_DATAGRAM }
{
    let layers = table.layers();
    frame_length(BOUNDS.bare, layers, word, plan_len(layers))
}
