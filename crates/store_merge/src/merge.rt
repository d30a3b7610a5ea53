//! Merging two stores.
ghost use Rattle.std.specs.Prelude.{◌≡◌, ◌≢◌, ℕ, List, ◌++◌, ◌+◌, ◌≤◌, IfErr, OnOk, OnErr, Ok, Err};
ghost use Rattle.pet_base.specs.declared.limits.TheConstants.{MAX_PACKETS};
ghost use Rattle.packet_verdicts.specs.KeptSet.{KeptSet};
ghost use Rattle.pet_receive.specs.UnionSteps.{union_steps};
ghost use Rattle.store_text.specs.Store.{store_text};
ghost use Rattle.store_merge.specs.Reading.{store_steps};
ghost use Rattle.store_text.specs.Refusals.{read_text};
ghost use Rattle.store_merge.specs.Merged.{merged, of_first, of_second};

use crate::fault::MergeFault;
use crate::{read_store, write_store};
use field_rows::Rows;
use packet_verdicts::Absorb;
use pet_base::{NoMemory, Steps};
use std::alloc::Global;
use std::sync::ledger::Ledger;
use store_text::BadStore;

impl From<Absorb> for MergeFault {
    ghost use Rattle.store_merge.specs.Merged.{of_both};

    ghost from_gives = { λ both fault. fault ≡ of_both both };

    fn from(both: Absorb) -> MergeFault {
        match both {
            Absorb::OtherSession => MergeFault::OtherSession,
            Absorb::Clash(group, number) => MergeFault::Clash(group, number),
            Absorb::Full(group) => MergeFault::Full(group),
            Absorb::NoMemory => MergeFault::NoMemory,
        }
    }
}

impl From<NoMemory> for MergeFault {
    ghost use Rattle.store_merge.specs.declared.fault.MergeFault.TheVariants.{NoMemory as no_memory};

    ghost from_gives = { λ _ fault. fault ≡ no_memory };

    fn from(_e: NoMemory) -> MergeFault {
        MergeFault::NoMemory
    }
}

/// Appends the store of all packets that the first store or the second has. `into` is as before where there is none. Each
/// store's groups, and those of both, may cost at most `limit`. Where it merges them, it counts at most the
/// steps of reading both and of the union.
pub fn merge_stores<F: Rows, L: Ledger>(
    alloc: Global,
    f: &F,
    first: &[u8],
    second: &[u8],
    limit: u64,
    into: &mut Vec<u8>,
    steps: &mut Steps<L>,
) -> Result<(), MergeFault>
    requires width { F.coding.width ≡ 2 }
    requires points { MAX_PACKETS ≤ F.COUNT }
    ensures merged { OnOk result ((set : KeptSet)
        × (merged limit first.now second.now ≡ Ok set)
        × (into.new.items ≡ into.old.items ++ store_text set)) }
    ensures refused { IfErr result (λ fault. fault ≢ MergeFault.NoMemory
        → merged limit first.now second.now ≡ Err fault) }
    ensures err { OnErr result (into.new.items ≡ into.old.items) }
    ensures cost { OnOk result ((a b : KeptSet) → read_text limit first.now ≡ Ok a
        → read_text limit second.now ≡ Ok b
        → steps.new ≤ steps.old + store_steps a + store_steps b + union_steps a b) }

    // It does not matter which store is named first, and which two of three are merged first; a store merged with itself is
    // what was read of it.
    ensures commutes { (set : KeptSet) → merged limit first.now second.now ≡ Ok set
        → merged limit second.now first.now ≡ Ok set }
    ensures associates { (third : List ℕ) (set all : KeptSet)
        → merged limit first.now second.now ≡ Ok set → merged limit (store_text set) third ≡ Ok all
        → (rest : KeptSet) × (merged limit second.now third ≡ Ok rest)
        × (merged limit first.now (store_text rest) ≡ Ok all) }
    ensures itself { (set : KeptSet) → read_text limit first.now ≡ Ok set
        → merged limit first.now first.now ≡ Ok set }
{
    let mut joined = match read_store(alloc, f, first, limit, steps) {
        Ok(receiver) => receiver,
        Err(fault) => return Err(in_first(fault)),
    };
    let other = match read_store(alloc, f, second, limit, steps) {
        Ok(receiver) => receiver,
        Err(fault) => return Err(in_second(fault)),
    };
    joined.absorb(&other, steps)?;
    drop(other);
    write_store(&joined, into)?;
    Ok(())
}

/// The refusal of the first store.
fn in_first(fault: BadStore) -> MergeFault
    ensures { result ≡ of_first fault }
{
    match fault {
        BadStore::At(at, kind) => MergeFault::First(at, kind),
        BadStore::NoMemory => MergeFault::NoMemory,
    }
}

/// The refusal of the second.
fn in_second(fault: BadStore) -> MergeFault
    ensures { result ≡ of_second fault }
{
    match fault {
        BadStore::At(at, kind) => MergeFault::Second(at, kind),
        BadStore::NoMemory => MergeFault::NoMemory,
    }
}
