//! Whether a table is that of a cut in a format.
ghost use Rattle.std.specs.Prelude.{◌≡◌, ◌↔◌, ◌*◌, IsTrue, map};
ghost use Rattle.stripe_plan.specs.Sizes.{twofold};
ghost use Rattle.stream_session.specs.Tables.{table_of_in, sizes_of, sizes_with};

use layer_split::GroupCut;
use packet_frame::Format;
use priority_file::{LayerRule, Priority};
use stream_session::is_table_of;
use stripe_plan::{LayerSize, Table};

/// Whether this is the table of the cut under this priority whose words the plan of the format cuts.
pub(crate) fn is_table_in(
    format: &Format,
    priority: &Priority,
    cut: &GroupCut,
    table: &Table,
) -> bool
    ensures { IsTrue result ↔ (table.now ≡ table_of_in format.now priority.now cut.now) }
{
    if format.bounds.doubled {
        is_twofold_table(priority, cut, table)
    } else {
        is_table_of(priority, cut, table)
    }
}

/// Whether this is the table of layers of twice the lengths of the cut.
fn is_twofold_table(priority: &Priority, cut: &GroupCut, table: &Table) -> bool
    ensures { IsTrue result ↔ (table.now ≡ record {
      packets = priority.now.packets;
      layers = map twofold (sizes_of priority.now cut.now);
    }) }
{
    let rules = priority.layers.as_slice();
    let are = are_twofold(table.layers(), cut.lengths.as_slice(), rules);
    are && priority.packets == table.packets()
}

/// Whether the layers are of twice these lengths, each with the need of its rule.
fn are_twofold(layers: &[LayerSize], lengths: &[u32], rules: &[LayerRule]) -> bool
    ensures { IsTrue result ↔ (layers.now ≡ map twofold (sizes_with lengths.now rules.now)) }
{
    if layers.len() != lengths.len().min(rules.len()) {
        return false;
    }
    for layer in 0..layers.len() {
        if !is_twofold(&layers[layer], lengths[layer], &rules[layer]) {
            return false;
        }
    }
    true
}

/// Whether the layer is of twice this length, with the need of the rule.
fn is_twofold(layer: &LayerSize, length: u32, rule: &LayerRule) -> bool
    ensures { IsTrue result ↔ (layer.now ≡ record { length = 2 * length; need = rule.now.need }) }
{
    u64::from(layer.length) == 2 * u64::from(length) && layer.need == rule.need
}
