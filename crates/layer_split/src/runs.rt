//! The runs of a group, as they grow.
ghost use Rattle.std.specs.Prelude.{◌≡◌, ◌≤◌, sum_by, IfOk, OnOk};
ghost use Rattle.pet_base.specs.declared.limits.TheConstants.{MAX_GROUP_BYTES};
ghost use Rattle.layer_split.specs.Splitting.{begins_run, with_run};

use crate::cut::Run;
use pet_base::NoMemory;

/// Puts a row behind the runs, in one with the last where that is of its layer, and answers whether it begins a run.
pub fn add_run(runs: &mut Vec<Run>, run: Run) -> Result<bool, NoMemory>
    requires { run.len ≤ MAX_GROUP_BYTES }
    ensures begun { IfOk result (λ begun. begun ≡ begins_run runs.old.items run.layer) }
    ensures ok { OnOk result (sum_by (λ run. run.len) runs.old.items ≤ MAX_GROUP_BYTES
        → runs.new.items ≡ with_run runs.old.items run) }
{
    let count = runs.len();
    if count == 0 {
        runs.push(run)?;
        return Ok(true);
    }
    let last = runs[count - 1];
    if run.layer == last.layer {
        runs[count - 1] = Run {
            layer: last.layer,
            at: last.at,
            len: last.len.saturating_add(run.len),
        };
        return Ok(false);
    }
    runs.push(run)?;
    Ok(true)
}
