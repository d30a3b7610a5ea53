//! Runs of bytes that can neither decide nor end anything, which are read at once.
ghost use Rattle.std.specs.Prelude.{◌≡◌, ◌≢◌, ◌+◌, ◌<◌, ◌≤◌, ◌++◌, List, ℕ, length, take, true, OnOk, IfErr};
ghost use Rattle.mpeg_scan.specs.declared.piece.Piece.{Piece};
ghost use Rattle.mpeg_scan.specs.Refusals.{Refuses};
ghost use Rattle.mpeg_scan.specs.Scanning.{HasRead, HasRefused, HasStopped};
ghost use Rattle.mpeg_scan.specs.inside.Moves.{Lacks, IsQuiet};

use super::Scanner;
use crate::refusal::Scan;
use memchr::memchr;
use pet_base::MAX_STREAM;

impl Scanner {
    /// How many of these bytes can be skipped, where that is at least 5.
    pub(super) fn skippable(&self, ahead: &[u8]) -> usize
        ensures within { result ≤ length ahead.now }
        ensures quiet { 5 ≤ result → IsQuiet self.now (take result ahead.now) }
    {
        if !self.opened {
            return 0;
        }
        let run = self.nonzero_run(ahead);
        if run >= 5 {
            return run;
        }
        self.run_without_one(ahead)
    }

    /// Behind two bytes that aren't zero: how many bytes come before the first zero.
    fn nonzero_run(&self, ahead: &[u8]) -> usize
        ensures within { result ≤ length ahead.now }
        ensures quiet { self.now.opened ≡ true → 5 ≤ result
            → IsQuiet self.now (take result ahead.now) }
    {
        if self.back1 != 0 && self.back2 != 0 {
            return front_without(0, ahead);
        }
        0
    }

    /// Behind three bytes none of which is 1: how many bytes come before the first 1.
    fn run_without_one(&self, ahead: &[u8]) -> usize
        ensures within { result ≤ length ahead.now }
        ensures quiet { self.now.opened ≡ true → 5 ≤ result
            → IsQuiet self.now (take result ahead.now) }
    {
        if self.back1 != 1 && self.back2 != 1 && self.back3 != 1 {
            return front_without(1, ahead);
        }
        0
    }

    /// Reads a run that can be skipped.
    pub(super) fn skip(&mut self, run: &[u8]) -> Result<(), Scan>
        requires quiet { IsQuiet self.old run.now }
        requires long { 5 ≤ length run.now }
        ensures ok { OnOk result ((stream : List ℕ) (given : List Piece) → HasRead self.old stream given
            → HasRead self.new (stream ++ run.now) given) }
        ensures refusal { IfErr result (λ scan. (stream : List ℕ) (given : List Piece) → HasRead self.old stream given
            → (rest : List ℕ) → Refuses (stream ++ run.now ++ rest) scan) }
        ensures stopped { IfErr result (λ scan. (stream : List ℕ) (given : List Piece) → HasRead self.old stream given
            → HasStopped (stream ++ run.now) scan given) }
        ensures refused { IfErr result (λ scan. HasRefused self.new scan) }
    {
        let end = run.len();
        if end as u64 > MAX_STREAM.saturating_sub(self.at) {
            self.refused = Some(Scan::TooLong);
            return Err(Scan::TooLong);
        }
        self.at += end as u64;
        self.back1 = run[end - 1];
        self.back2 = run[end - 2];
        self.back3 = run[end - 3];
        self.back4 = run[end - 4];
        self.back5 = run[end - 5];
        Ok(())
    }
}

/// How many bytes stand before the first of this value.
fn front_without(value: u8, bytes: &[u8]) -> usize
    ensures within { result ≤ length bytes.now }
    ensures lacks { Lacks value (take result bytes.now) }
{
    match memchr(value, bytes) {
        Some(first) => first,
        None => bytes.len(),
    }
}
