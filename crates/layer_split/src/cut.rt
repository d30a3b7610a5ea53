//! What a group is cut into.
ghost use Rattle.std.specs.Prelude.{◌≡◌, ◌≤◌, ◌-◌, All, map};
ghost use Rattle.layer_split.specs.Layers.{Cut};
ghost use Rattle.layer_split.specs.Splitting.{rebased};

use arrayvec::ArrayVec;
use pet_base::MAX_LAYERS;
use std::marker::Model;

/// A row of adjacent pieces of one layer.
#[derive(Clone, Copy, Debug, PartialEq, Eq)]
pub struct Run {
    /// The number of its layer, from 0.
    pub layer: u8,
    /// The byte of the stream at which it begins.
    pub at: u64,
    /// Its number of bytes.
    pub len: u32,
}

/// The runs of a group in stream order, and the length of each layer in bytes.
#[derive(Drop)]
pub struct GroupCut {
    pub runs: Vec<Run>,
    pub lengths: ArrayVec<u32, MAX_LAYERS>,
}

impl Model for GroupCut {
    ghost use Rattle.layer_split.specs.Layers.{Cut};

    ghost Value = { Cut };

    ghost view = { λ c. record { runs = c.runs.items; lengths = c.lengths.items } };
}

impl GroupCut {
    /// Counts the places of the runs from this byte of the stream on. No run begins before it. It takes no memory.
    pub fn rebase(&mut self, from: u64)
        requires { All (λ run. from ≤ run.at) self.old.runs }
        ensures { self.new ≡ record { runs = map (rebased from) self.old.runs; lengths = self.old.lengths } }
    {
        rebase_runs(self.runs.as_mut_slice(), from);
    }
}

/// Counts the places of these runs from this byte on.
fn rebase_runs(runs: &mut [Run], from: u64)
    requires { All (λ run. from ≤ run.at) runs.old }
    ensures { runs.new ≡ map (rebased from) runs.old }
{
    for i in 0..runs.len() {
        let run = runs[i];
        runs[i] = Run {
            layer: run.layer,
            at: run.at - from,
            len: run.len,
        };
    }
}
