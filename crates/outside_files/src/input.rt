//! Reading a file of a place, to its end or one byte past a limit.
ghost use Rattle.std.specs.Prelude.{◌≡◌, ◌≤◌, length, true, IfOk, IfErr};
ghost use Rattle.pet_base.specs.declared.place.Side.TheVariants.{Read};
ghost use Rattle.pet_base.specs.Causes.{Blames, stops};
ghost use Rattle.outside_files.specs.Failures.{has_failed};
ghost use Rattle.pet_base.specs.Seen.{Seen, KeepsOutput, OnlyReads, HadFault, PlaceStops};
ghost use Rattle.outside_files.specs.declared.portions.TheConstants.{MAX_PORTION};
ghost use Rattle.outside_files.specs.Inputs.{IsFrontOf, Licensed, IsRead, HasTakenAll};

use crate::portions::{Portions, portion_room};
use pet_base::{Place, Stop};
use std::alloc::Global;

/// Reads the file of this name to its end, or one byte past the limit.
///
/// # Errors
///
/// `Failed` where a call of the place failed, and then its count of faults rose.
pub fn read_file<P: Place>(
    alloc: Global,
    name: &str,
    limit: u64,
    place: &mut P,
) -> Result<Vec<u8>, Stop>
    ensures read { IfOk result (λ bytes. IsFrontOf limit bytes.items (P.seen place.old).files
        name.now) }
    ensures others { KeepsOutput (P.seen place.old) (P.seen place.new) }
    ensures later { (P.seen place.old).faults ≤ (P.seen place.new).faults }
    ensures cause { IfErr result (Licensed (HadFault (P.seen place.old) (P.seen place.new)
        (IsRead name.now))) }
    ensures once { PlaceStops (stops has_failed result) (P.seen place.old) (P.seen place.new) }
{
    let mut buffer = portion_room(alloc)?;
    place.enter(name)?;
    read_entered(alloc, limit, place, &mut buffer)
}

/// Reads the input to its end, or one byte past the limit.
fn read_entered<P: Place>(
    alloc: Global,
    limit: u64,
    place: &mut P,
    buffer: &mut [u8],
) -> Result<Vec<u8>, Stop>
    requires input { (P.seen place.old).has_input ≡ true }
    requires room { length buffer.old ≡ MAX_PORTION }
    ensures read { IfOk result (λ bytes. HasTakenAll limit bytes.items (P.seen place.old)
        (P.seen place.new)) }
    ensures others { OnlyReads (P.seen place.old) (P.seen place.new) }
    ensures later { (P.seen place.old).faults ≤ (P.seen place.new).faults }
    ensures cause { IfErr result (Licensed (HadFault (P.seen place.old) (P.seen place.new)
        (Blames Read (P.seen place.old).source))) }
    ensures once { PlaceStops (stops has_failed result) (P.seen place.old) (P.seen place.new) }
{
    let mut bytes = Vec::new(alloc);
    let mut portions = Portions::up_to(limit);
    while let Some(count) = portions.next(place, buffer)? {
        bytes.extend_from_slice(&buffer[..count])?;
    }
    Ok(bytes)
}
