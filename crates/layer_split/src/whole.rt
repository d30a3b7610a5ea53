//! All groups of a stream's pieces.
ghost use Rattle.std.specs.Prelude.{◌≡◌, ◌≢◌, ◌++◌, length, IfOk, IfErr, OnOk, Some, None};
ghost use Rattle.priority_file.specs.Priority.{layer_of};
ghost use Rattle.layer_split.specs.declared.fault.SplitFault.{SplitFault};
ghost use Rattle.layer_split.specs.Groups.{groups_of};
ghost use Rattle.layer_split.specs.Faults.{fault_of};
ghost use Rattle.layer_split.specs.Splitting.{cuts_of, cuts_in};

use crate::cut::GroupCut;
use crate::fault::SplitFault;
use crate::splitter::Splitter;
use mpeg_scan::Piece;
use pet_base::NoMemory;
use priority_file::Priority;
use std::alloc::Global;

/// The cuts of all groups of these pieces, which are those of a stream.
///
/// `GroupTooLong(g)` comes exactly where g is the first of the first 65,535 groups that is too long, and `TooManyGroups`
/// exactly where there is none and there are more groups than that.
pub fn split(
    alloc: Global,
    pieces: &[Piece],
    priority: &Priority,
) -> Result<Vec<GroupCut>, SplitFault>
    ensures cuts { IfOk result (λ cuts. cuts.items ≡ cuts_of priority.now (groups_of pieces.now)) }
    ensures no_fault { IfOk result (λ _. fault_of (layer_of priority.now)
        (length priority.now.layers) (groups_of pieces.now) ≡ None) }
    ensures fault { IfErr result (λ fault. fault ≢ SplitFault.NoMemory
        → fault_of (layer_of priority.now) (length priority.now.layers) (groups_of pieces.now) ≡ Some fault) }
{
    let mut cuts = Vec::new(alloc);
    let mut splitter = match Splitter::new(alloc, priority) {
        Ok(splitter) => splitter,
        Err(NoMemory) => return Err(SplitFault::NoMemory),
    };
    for piece in pieces {
        let cut = splitter.add(piece)?;
        keep(&mut cuts, cut)?;
    }
    let cut = splitter.finish()?;
    keep(&mut cuts, cut)?;
    Ok(cuts)
}

/// Keeps a cut, where there is one.
fn keep(cuts: &mut Vec<GroupCut>, cut: Option<GroupCut>) -> Result<(), SplitFault>
    ensures ok { OnOk result (cuts.new.items ≡ cuts.old.items ++ cuts_in cut) }
    ensures fault { IfErr result (λ fault. fault ≡ SplitFault.NoMemory) }
{
    match cut {
        Some(cut) => {
            if cuts.push(cut).is_err() {
                return Err(SplitFault::NoMemory);
            }
            Ok(())
        }
        None => Ok(()),
    }
}
