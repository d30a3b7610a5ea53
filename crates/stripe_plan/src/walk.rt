//! The stripes of a table's plan, one after the other.
ghost use Rattle.std.specs.Prelude.{◌≡◌};
ghost use Rattle.stripe_plan.specs.Layers.{needs_of, plan_ends, plan_stripes};
ghost use Rattle.stripe_plan.specs.Stripes.{IsPlan};
ghost use Rattle.stripe_plan.specs.Walk.{stripes_left, IsWithin};

use crate::Table;
use crate::plan::next_start;

/// The stripes of a table's plan in order: the first word of each, and its length in words.
#[derive(Drop)]
pub struct PlanStripes<'t> {
    table: &'t Table,
    /// The first word of the next stripe, or the end of the last one.
    at: u32,
    /// The number of words.
    words: u32,
}

impl Table {
    /// The stripes of the plan in order: the first word of each, and its length in words, at most the number of packets.
    pub fn plan(&self) -> PlanStripes<'_>
        ensures within { IsWithin result }
        ensures stripes { stripes_left result ≡ plan_stripes self.now.layers }
        ensures is_plan { IsPlan (needs_of self.now.layers) 0 (plan_ends self.now.layers) }
    {
        PlanStripes {
            table: self,
            at: 0,
            words: self.words(),
        }
    }
}

impl<'t> Iterator for PlanStripes<'t> {
    ghost use Rattle.std.specs.Iterator.{YieldsFirst, item_count};

    type Item = (u32, u16);

    ghost can_next = { IsWithin };

    ghost next_gives = { YieldsFirst stripes_left };

    ghost remaining = { item_count stripes_left };

    fn next(&mut self) -> Option<(u32, u16)> {
        if self.at == self.words {
            return None;
        }
        let start = self.at;
        self.at = next_start(self.table, start);
        Some((start, (self.at - start) as u16))
    }
}
