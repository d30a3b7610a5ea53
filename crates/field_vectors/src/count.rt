//! Many steps at once.
ghost use Rattle.std.specs.Prelude.{◌≡◌, ◌+◌};

use pet_base::Steps;
use std::sync::ledger::Ledger;

/// Counts so many steps. The counter takes no bytes, so the loop goes when it is built.
#[inline(always)]
pub fn count_steps<L: Ledger>(steps: &mut Steps<L>, count: usize)
    ensures { steps.new ≡ steps.old + count }
{
    for _ in 0..count {
        steps.tick();
    }
}
