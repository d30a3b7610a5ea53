//! Who keeps frames.
ghost use Rattle.std.specs.Prelude.{◌≡◌, ℕ, IfOk, OnErr};
ghost use Rattle.store_journal.specs.Text.{Keep, Cost};
ghost use Rattle.store_journal.specs.Receives.{Answers, Costs};

use pet_base::{NoMemory, Steps};
use std::sync::ledger::Ledger;

/// Who keeps frames: what it has kept is a set, and by this set a frame is kept or not.
pub trait Receive {
    /// What sets there are.
    ghost Set: { Type 0 };

    /// What it has kept.
    ghost set: { Self → Set };

    /// The set with a frame, where a receiver of the set would keep it.
    ghost keep: { Keep Set };

    /// How many steps keeping a frame may take, by the set before.
    ghost cost: { Cost Set };

    /// Keeps a frame, or does not. Only frames of less than 65,536 bytes are kept.
    fn offer<L: Ledger>(&mut self, frame: &[u8], steps: &mut Steps<L>) -> Result<bool, NoMemory>
        ensures verdict { IfOk result (λ kept. Answers keep kept frame.now (set self.old) (set self.new)) }
        ensures steps { IfOk result (λ kept. Costs kept (cost (set self.old) frame.now) steps.old steps.new) }
        ensures err { OnErr result ((set self.new ≡ set self.old) × (steps.new ≡ steps.old)) };
}
