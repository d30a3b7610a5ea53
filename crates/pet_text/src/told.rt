//! What a program prints.
ghost use Rattle.std.specs.Prelude.{◌≡◌, ◌≢◌, [], OnOk, OnErr};
ghost use Rattle.pet_base.specs.Causes.{one_more};
ghost use Rattle.pet_base.specs.Lent.{seen, AreSame};
ghost use Rattle.outside_files.specs.Printed.{Printed, PrintedFront, PrintsLine};

use pet_base::{Failed, Link, Outside, Place, Sink};
use std::sync::ledger::Ledger;

/// Prints a line, where it is not empty.
pub fn put_line<P: Place, K: Link, S: Sink, L: Ledger>(
    line: &[u8],
    outside: &mut Outside<P, K, S, L>,
) -> Result<(), Failed>
    ensures prints { PrintsLine line.now (seen outside.old) (seen outside.new) }
    ensures whole { OnOk result (Printed line.now (seen outside.old) (seen outside.new)) }
    ensures calm { OnOk result ((seen outside.new).out_faults ≡ (seen outside.old).out_faults) }
    ensures front { OnErr result (PrintedFront line.now (seen outside.old) (seen outside.new)) }
    ensures once { OnErr result ((seen outside.new).out_faults ≡ one_more (seen outside.old).out_faults) }
    ensures some { OnErr result (line.now ≢ []) }
    ensures same { AreSame outside.old outside.new }
{
    if line.is_empty() {
        return Ok(());
    }
    outside.out.put(line)
}
