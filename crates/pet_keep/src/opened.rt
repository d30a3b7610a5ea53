//! Opening the journal, and a run on it.
ghost use Rattle.std.specs.Prelude.{◌≡◌, ◌≢◌, vec_len, IfOk};
ghost use Rattle.pet_base.specs.declared.limits.TheConstants.{MAX_ENTRY};
ghost use Rattle.pet_base.specs.Lent.{seen, AreSame};
ghost use Rattle.outside_files.specs.Failures.{EndsAtOnce};
ghost use Rattle.outside_routes.specs.Way.{way_of};
ghost use Rattle.pet_keep.specs.Journaled.{disk_now, uncounted};
ghost use Rattle.pet_keep.specs.Keeps.{Keeps};
ghost use Rattle.pet_keep.specs.Runs.{of_place, of_link};
ghost use Rattle.pet_keep.specs.Statuses.{status_of};
ghost use Rattle.pet_keep.specs.inside.SoFar.{end_of_start};

use crate::end::KeepEnd;
use crate::keeping::keep_to_end;
use outside_disk::Disk;
use outside_routes::Route;
use pet_base::{Link, MAX_ENTRY, MAX_SESSION, Outside, Place, Sink};
use pet_field::Gf16Tables;
use std::alloc::{AllocError, Global};
use std::sync::ledger::Ledger;
use store_keeper::{Keeper, StartFault};

/// Opens the journal on the disk, keeps what comes from FROM, and writes the store of it to STORE. The disk is given back.
pub(crate) fn keep_opened<D: Disk, P: Place, K: Link, S: Sink, L: Ledger>(
    alloc: Global,
    from: Route<'_>,
    session: [u8; 8],
    store: &str,
    disk: D,
    outside: &mut Outside<P, K, S, L>,
) -> (KeepEnd, D)
    ensures keeps { Keeps (way_of from.entry) session store.now (uncounted (seen outside.old)) (uncounted (seen outside.new))
        (disk_now D.Disk disk) (disk_now D.Disk result.1) result.0 }
    ensures known { result.0 ≢ KeepEnd.Usage }
    ensures same { AreSame outside.old outside.new }
    ensures once { EndsAtOnce (of_place (status_of result.0)) (of_link (status_of result.0))
        (uncounted (seen outside.old)) (uncounted (seen outside.new)) }
{
    let Ok(mut buffer) = room(alloc) else {
        return (KeepEnd::NoMemory, disk);
    };
    let Ok(field) = Gf16Tables::new(alloc) else {
        return (KeepEnd::NoMemory, disk);
    };
    match Keeper::start(alloc, &field, session, disk, MAX_SESSION, outside.steps) {
        Ok(mut keeper) => {
            let end = keep_to_end(alloc, from, store, &mut keeper, &mut buffer, outside);
            (end, keeper.stop())
        }
        Err((disk, fault)) => (end_of_fault(fault), disk),
    }
}

/// Room for the longest datagram.
fn room(alloc: Global) -> Result<Vec<u8>, AllocError>
    ensures { IfOk result (λ room. vec_len room ≡ MAX_ENTRY) }
{
    vec![in alloc; 0u8; usize::from(MAX_ENTRY)]
}

/// The end of a run whose journal is not opened.
fn end_of_fault(fault: StartFault) -> KeepEnd
    ensures { result ≡ end_of_start fault }
{
    match fault {
        StartFault::BadJournal(at) => KeepEnd::BadJournal(at),
        StartFault::OtherSession(_) => KeepEnd::OtherSession,
        StartFault::DiskFault => KeepEnd::DiskFault,
        StartFault::NoMemory => KeepEnd::NoMemory,
    }
}
