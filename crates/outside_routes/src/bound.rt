//! The line of the port at which a link receives.
ghost use Rattle.std.specs.Prelude.{◌≡◌, ◌++◌, OnOk, OnErr};
ghost use Rattle.outside_routes.specs.Bound.{bound_text};

use pet_base::NoMemory;
use std::alloc::Global;

/// Appends the line of the port at which a link receives. After a refusal, which is want of memory, `into` is as before.
pub fn bound_line(alloc: Global, port: u16, into: &mut Vec<u8>) -> Result<(), NoMemory>
    ensures ok { OnOk result (into.new.items ≡ into.old.items ++ bound_text port) }
    ensures err { OnErr result (into.new.items ≡ into.old.items) }
{
    let line = format!(in alloc; "bound {port}\n")?;
    into.extend_from_slice(line.as_bytes())?;
    Ok(())
}
