//! The cost of a group.
ghost use Rattle.std.specs.Prelude.{◌≡◌, ◌*◌, ◌<◌, ◌≤◌};
ghost use Rattle.stripe_plan.specs.Sizes.{cost_by, cost_of};

use pet_base::{MAX_DATAGRAM, MAX_PACKETS};
use stripe_plan::{Table, datagram_length_by};

/// The bytes of all packets of a group with this table: packets times datagram length, at most `MAX_PACKETS` times
/// `MAX_DATAGRAM`.
pub fn group_cost(table: &Table) -> u64
    ensures value { result ≡ cost_of table.now.packets table.now.layers }
    ensures some { 0 < result }
    ensures few { result ≤ MAX_PACKETS * MAX_DATAGRAM }
{
    group_cost_by(table, 2)
}

/// The same, where a packet has `word` bytes for each stripe of the plan.
pub fn group_cost_by(table: &Table, word: u32) -> u64
    requires { word ≤ 2 }
    ensures value { result ≡ cost_by word table.now.packets table.now.layers }
    ensures some { 0 < result }
    ensures few { result ≤ MAX_PACKETS * MAX_DATAGRAM }
{
    u64::from(table.packets()) * u64::from(datagram_length_by(table, word))
}
