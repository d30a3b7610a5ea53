//! The group with which a session is too large.
ghost use Rattle.std.specs.Prelude.{◌≡◌, ◌≤◌, map};
ghost use Rattle.pet_base.specs.declared.limits.TheConstants.{MAX_SESSION};
ghost use Rattle.stream_session.specs.Refusals.{first_above};
ghost use Rattle.stream_session.specs.inside.Planning.{table_cost};

use packet_session::group_cost_by;
use stripe_plan::Table;

/// The first group with which the packets of these tables, times their datagram lengths at `word` bytes for each stripe, pass so
/// many bytes.
pub fn first_too_large(word: u32, tables: &[Table], limit: u64) -> Option<u32>
    requires word { word ≤ 2 }
    requires limit { limit ≤ MAX_SESSION }
    ensures { result ≡ first_above limit 0 (map (table_cost word) tables.now) }
{
    let mut total = 0;
    for group in 0..tables.len() {
        total += group_cost_by(&tables[group], word);
        if total > limit {
            return Some(group as u32);
        }
    }
    None
}
