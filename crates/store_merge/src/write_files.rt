//! The file of a store.
ghost use Rattle.std.specs.Prelude.{◌≡◌, ◌⊎◌, ◌≤◌, [], ◌∷◌, None, Some, Err, is_err, IfErr, OnOk, OnErr, vec_capacity};
ghost use Rattle.pet_base.specs.declared.limits.TheConstants.{MAX_ENTRY};
ghost use Rattle.pet_base.specs.Seen.{Seen, KeepsInput, HasBlame, PlaceStops};
ghost use Rattle.pet_base.specs.Causes.{stops};
ghost use Rattle.outside_files.specs.Failures.{has_failed};
ghost use Rattle.outside_files.specs.Inputs.{Licensed};
ghost use Rattle.outside_files.specs.Uses.{writing, IsOneOf, Failed as HasFailed};
ghost use Rattle.outside_files.specs.Wrote.{Wrote};
ghost use Rattle.pet_receive.specs.Arrivals.{kept_set};
ghost use Rattle.store_text.specs.Files.{store_file};

use crate::put::{entry_room, put_store};
use field_rows::Rows;
use pet_base::{Failed, Place, Stop};
use pet_receive::Receiver;
use std::alloc::Global;

/// Writes the store of all packets that the receiver has kept to the file of this name, entry by entry. The file is made once
/// there is room for an entry, so want of memory changes no file, and has a front of the store where it cannot be written.
pub fn write_store_file<F: Rows, P: Place>(
    alloc: Global,
    receiver: &Receiver<'_, F>,
    name: &str,
    place: &mut P,
) -> Result<(), Stop>
    ensures written { OnOk result (Wrote (store_file name.now (kept_set receiver.now) ∷ []) None (P.seen place.old) (P.seen place.new)) }
    ensures front { OnErr result (((P.seen place.new).files ≡ (P.seen place.old).files)
        ⊎ Wrote [] (Some (store_file name.now (kept_set receiver.now))) (P.seen place.old) (P.seen place.new)) }
    ensures memory { result ≡ Err Stop.NoMemory → (P.seen place.new).files ≡ (P.seen place.old).files }
    ensures input { KeepsInput (P.seen place.old) (P.seen place.new) }
    ensures cause { IfErr result (Licensed (HasFailed (writing name.now ∷ []) (P.seen place.old)
        (P.seen place.new))) }
    ensures later { (P.seen place.old).faults ≤ (P.seen place.new).faults }
    ensures once { PlaceStops (stops has_failed result) (P.seen place.old) (P.seen place.new) }
{
    let mut entry = entry_room(alloc)?;
    put_store_file(receiver, &mut entry, name, place)?;
    Ok(())
}

/// Makes a file of this name and puts the store to it, entry by entry. `entry` is room for one entry at a time.
fn put_store_file<F: Rows, P: Place>(
    receiver: &Receiver<'_, F>,
    entry: &mut Vec<u8>,
    name: &str,
    place: &mut P,
) -> Result<(), Failed>
    requires room { MAX_ENTRY ≤ vec_capacity entry.old }
    ensures written { OnOk result (Wrote (store_file name.now (kept_set receiver.now) ∷ []) None (P.seen place.old) (P.seen place.new)) }
    ensures front { OnErr result (((P.seen place.new).files ≡ (P.seen place.old).files)
        ⊎ Wrote [] (Some (store_file name.now (kept_set receiver.now))) (P.seen place.old) (P.seen place.new)) }
    ensures input { KeepsInput (P.seen place.old) (P.seen place.new) }
    ensures cause { HasBlame (P.seen place.old) (P.seen place.new) result
        (IsOneOf (writing name.now ∷ [])) }
    ensures once { PlaceStops (is_err result) (P.seen place.old) (P.seen place.new) }
{
    place.create(name)?;
    put_store(receiver, entry, place)
}
