//! A store of the first version, taken into the form of today.
ghost use Rattle.std.specs.Prelude.{◌≡◌, ◌≢◌, ◌++◌, ◌≤◌, length, IfOk, IfErr, OnErr, Ok, Err, take};
ghost use Rattle.std.specs.Str.{bytes_eq};
ghost use Rattle.packet_verdicts.specs.KeptSet.{KeptSet, IsKeptSet, cost_kept};
ghost use Rattle.packet_verdicts.specs.Union.{frames_in};
ghost use Rattle.store_text.specs.Store.{store_text, old_store_text};
ghost use Rattle.store_text.specs.Refusals.{read_text};
ghost use Rattle.store_text.specs.declared.format.TheConstants.{STORE_FORM};
ghost use Rattle.store_packets.specs.Migrated.{migrated, of_old};

use crate::fault::MigrateFault;
use crate::fits::check_today;
use crate::packets::read_packets;
use crate::renew::append_today;
use store_text::{BadStore, OLD_STORE_FORM, STORE_FORM};

/// Appends the store of today with the packets of a store of the first version, and answers how many they are. The groups may
/// cost at most `limit`, of the first version and today. `into` is as before where there is no such store.
pub fn migrate_store(bytes: &[u8], limit: u64, into: &mut Vec<u8>) -> Result<u32, MigrateFault>
    ensures migrated { IfOk result (λ count. (set : KeptSet)
        × (migrated limit bytes.now ≡ Ok set)
        × (into.new.items ≡ into.old.items ++ store_text set)
        × (count ≡ length (frames_in set))
        × (read_text limit (store_text set) ≡ Ok set)) }
    ensures refused { IfErr result (λ fault. fault ≢ MigrateFault.NoMemory
        → migrated limit bytes.now ≡ Err fault) }
    ensures err { OnErr result (into.new.items ≡ into.old.items) }

    // A store of the first version with the packets that a receiver may keep today comes to the store of that receiver.
    ensures kept { (set : KeptSet) → IsKeptSet set → length set.session ≡ 8
        → cost_kept set ≤ limit → bytes.now ≡ old_store_text set
        → migrated limit bytes.now ≡ Ok (record set { limit = limit }) }
{
    if begins_as_today(bytes) {
        return Err(MigrateFault::AlreadyNew);
    }
    let packets = match read_packets(&OLD_STORE_FORM, bytes, limit) {
        Ok(packets) => packets,
        Err(fault) => return Err(of_old(fault)),
    };
    check_today(packets.count, packets.entries, limit)?;
    let start = into.len();
    match append_today(&packets, into) {
        Ok(()) => Ok(packets.count),
        Err(_) => {
            into.truncate(start);
            Err(MigrateFault::NoMemory)
        }
    }
}

/// Whether the first bytes are there, and are the mark of a store of today.
fn begins_as_today(bytes: &[u8]) -> bool
    ensures { result ≡ bytes_eq (take 4 bytes.now) STORE_FORM.mark }
{
    bytes.starts_with(&STORE_FORM.mark)
}

/// The refusal of the store of the first version.
fn of_old(fault: BadStore) -> MigrateFault
    ensures { result ≡ of_old fault }
{
    match fault {
        BadStore::At(at, kind) => MigrateFault::At(at, kind),
        BadStore::NoMemory => MigrateFault::NoMemory,
    }
}
