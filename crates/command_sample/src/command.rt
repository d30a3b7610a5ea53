//! The command `sample`.
ghost use Rattle.std.specs.Prelude.{◌+◌, ◌<◌, ◌≤◌};
ghost use Rattle.pet_base.specs.declared.limits.TheConstants.{MAX_SAMPLE_GROUPS};
ghost use Rattle.command_sample.specs.Samples.{SampleEnds};
ghost use Rattle.command_sample.specs.SampleSteps.{sample_steps};

use crate::told::tell;
use pet_base::Steps;
use std::alloc::Global;
use std::sync::ledger::Ledger;

/// How `sample` ended.
#[derive(Debug, PartialEq, Eq, Drop)]
pub enum SampleEnd {
    /// The text of the summary.
    Done(Vec<u8>),
    /// No memory was found.
    NoMemory,
}

/// Makes the stream of a seed, of 1 to `MAX_SAMPLE_GROUPS` groups, hands the packets of its session that arrive to one
/// receiver, and answers the text that tells what was made, handed on and received. It uses no file, and fails only for
/// want of memory.
pub fn sample<L: Ledger>(alloc: Global, seed: u64, groups: u32, steps: &mut Steps<L>) -> SampleEnd
    requires some { 0 < groups }
    requires few { groups ≤ MAX_SAMPLE_GROUPS }
    ensures samples { SampleEnds seed groups result }
    ensures cost { steps.new ≤ steps.old + sample_steps seed groups }
{
    match tell(alloc, seed, groups, steps) {
        Ok(text) => SampleEnd::Done(text),
        Err(_) => SampleEnd::NoMemory,
    }
}
