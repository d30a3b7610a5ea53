//! What a priority needs of each layer, the table that it gives a group's layers in a format, and whether a table is that of a cut.
ghost use Rattle.std.specs.Prelude.{◌≡◌, ◌≤◌, ◌↔◌, length, Ok, Err, IsTrue, if◌then◌else◌};
ghost use Rattle.pet_base.specs.declared.limits.TheConstants.{MAX_LAYERS};
ghost use Rattle.priority_file.specs.Priority.{Priorities};
ghost use Rattle.layer_split.specs.Layers.{Cut};
ghost use Rattle.stripe_plan.specs.declared.table.TableFault.{TableFault};
ghost use Rattle.stream_session.specs.Tables.{table_of, table_of_in, sizes_of, IsFit, IsSessionFormat, sizes_by};
ghost use Rattle.stream_session.specs.Refusals.{is_long_in, is_wide_in};
ghost use Rattle.stream_session.specs.Planning.{AreOf};

use arrayvec::ArrayVec;
use layer_split::GroupCut;
use packet_frame::Format;
use pet_base::MAX_LAYERS;
use priority_file::Priority;
use stripe_plan::{LayerSize, Table, TableFault, measured, plan_table};

/// The number of packets of a priority, and the need of each of its layers.
#[derive(Drop)]
pub struct LayerNeeds {
    packets: u16,
    needs: ArrayVec<u16, MAX_LAYERS>,
}

impl LayerNeeds {
    /// Those of this priority.
    pub fn new(priority: &Priority) -> LayerNeeds
        ensures { AreOf result priority.now }
    {
        let mut needs = ArrayVec::new();
        for layer in 0..priority.layers.len() {
            let rule = &priority.layers[layer];
            needs.push(rule.need);
        }
        LayerNeeds {
            packets: priority.packets,
            needs,
        }
    }

    /// The number of packets.
    pub fn packets(&self) -> u16
        ensures { result ≡ self.now.packets }
    {
        self.packets
    }

    /// The layers of a cut.
    pub fn layers_of(&self, cut: &GroupCut) -> ArrayVec<LayerSize, MAX_LAYERS>
        ensures { (priority : Priorities) → AreOf self.now priority
            → result.items ≡ sizes_of priority cut.now }
    {
        sizes_of(cut.lengths.as_slice(), self.needs.as_slice())
    }

    /// The table of the plan of these layers in a format, which are those of a cut, or why there is none: the layers have too many
    /// bytes, or else the datagrams would be too long.
    pub fn table_of(&self, format: &Format, layers: &[LayerSize]) -> Result<Table, TableFault>
        requires format { IsSessionFormat format.now }
        requires few { self.now.packets ≤ format.now.bounds.packets }
        ensures { (priority : Priorities) (cut : Cut) → AreOf self.now priority → IsFit priority cut
            → layers.now ≡ sizes_of priority cut
            → result ≡ (if is_long_in format.now priority cut then Err TableFault.Sum
            else if is_wide_in format.now priority cut then Err TableFault.Wide
            else Ok (table_of_in format.now priority cut)) }
    {
        measured(&format.bounds, self.packets, layers)?;
        Ok(plan_table(&format.bounds, self.packets, layers))
    }
}

/// Whether this is the table of the cut under this priority.
pub fn is_table_of(priority: &Priority, cut: &GroupCut, table: &Table) -> bool
    ensures { IsTrue result ↔ (table.now ≡ table_of priority.now cut.now) }
{
    let own = LayerNeeds::new(priority);
    let sizes = sizes_of(cut.lengths.as_slice(), own.needs.as_slice());
    own.packets == table.packets() && sizes.as_slice() == table.layers()
}

/// Layers of these lengths, each with its need.
fn sizes_of(lengths: &[u32], needs: &[u16]) -> ArrayVec<LayerSize, MAX_LAYERS>
    requires { length needs.now ≤ MAX_LAYERS }
    ensures { result.items ≡ sizes_by lengths.now needs.now }
{
    let mut sizes = ArrayVec::new();
    for layer in 0..lengths.len().min(needs.len()) {
        sizes.push(LayerSize {
            length: lengths[layer],
            need: needs[layer],
        });
    }
    sizes
}
