//! A receiver as one that keeps the frames of a journal.
ghost use Rattle.std.specs.Prelude.{◌≡◌};

use field_rows::Rows;
use packet_verdicts::Verdict;
use pet_base::{NoMemory, Steps};
use pet_receive::Receiver;
use std::sync::ledger::Ledger;
use store_journal::Receive;

/// A receiver, to which a journal's frames are handed.
#[derive(Drop)]
pub struct KeptFrames<'f, F: Rows> {
    pub receiver: Receiver<'f, F>,
}

impl<F: Rows> Receive for KeptFrames<'_, F> {
    ghost use Rattle.packet_verdicts.specs.KeptSet.{KeptSet};
    ghost use Rattle.pet_receive.specs.Arrivals.{kept_set};
    ghost use Rattle.store_keeper.specs.Journal.{keep_frame, frame_cost};

    ghost Set = { KeptSet };

    ghost set = { λ k. kept_set k.receiver };

    ghost keep = { keep_frame };

    ghost cost = { frame_cost };

    fn offer<L: Ledger>(&mut self, frame: &[u8], steps: &mut Steps<L>) -> Result<bool, NoMemory> {
        let verdict = self.receiver.accept(frame, steps)?;
        Ok(matches!(verdict, Verdict::Kept(_)))
    }
}
