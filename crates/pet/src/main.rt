//! The program `pet`: runs the command of its words on this machine, and ends with the code of its status.
#![tactic(auto)]

ghost use Rattle.std.specs.Prelude.{◌≡◌, None};
ghost use Rattle.std.specs.Process.{exit_status};
ghost use Rattle.text_status.specs.Statuses.{code_of};
ghost use Rattle.pet_tool.specs.Starts.{StartsWords};

use pet_tool::start_words;
use std::process::ExitCode;
use text_status::Status;

fn main(rt: HostRuntime) -> ExitCode {
    run_program(&rt)
}

/// Runs the command of the program's words, and gives the code of its status.
fn run_program(rt: &HostRuntime) -> ExitCode
    ensures { (status : Status) × StartsWords None None status × (exit_status result ≡ code_of status) }
{
    let (status, _) = start_words(rt, rt.stdout());
    ExitCode::from(status.code())
}
