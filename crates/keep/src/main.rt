//! The program `pet-keep`: runs `keep` with its words on this machine, and ends with the code of its status.
#![tactic(auto)]

ghost use Rattle.std.specs.Prelude.{◌≡◌, None};
ghost use Rattle.std.specs.Process.{exit_status};
ghost use Rattle.pet_keep.specs.Starts.{StartsWords};
ghost use Rattle.pet_keep.specs.Statuses.{code_of};
ghost use Rattle.pet_keep.specs.declared.status.KeepStatus.{KeepStatus as Status};

use pet_keep::start_words;
use std::process::ExitCode;

fn main(rt: HostRuntime) -> ExitCode {
    run_program(&rt)
}

/// Runs `keep` with the program's words, and gives the code of its status.
fn run_program(rt: &HostRuntime) -> ExitCode
    ensures { (status : Status) × StartsWords None None status × (exit_status result ≡ code_of status) }
{
    let (status, _) = start_words(rt, rt.stdout());
    ExitCode::from(status.code())
}
