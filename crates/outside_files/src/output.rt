//! Writing a file of a place whole.
ghost use Rattle.std.specs.Prelude.{◌≡◌, ◌⊎◌, [], ◌∷◌, None, Some, is_err, OnOk, OnErr};
ghost use Rattle.pet_base.specs.Seen.{Seen, KeepsInput, HasBlame, PlaceStops};
ghost use Rattle.outside_files.specs.Uses.{writing, IsOneOf};
ghost use Rattle.outside_files.specs.Wrote.{Wrote};

use pet_base::{Failed, Place};

/// Makes a file of this name and puts its bytes.
///
/// # Errors
///
/// `Failed` where a call of the place failed, and then its count of faults rose. No file has changed then, or this one has a front
/// of the bytes.
pub fn put_file<P: Place>(name: &str, bytes: &[u8], place: &mut P) -> Result<(), Failed>
    ensures written { OnOk result (Wrote (record { name = name.now; bytes = bytes.now } ∷ []) None (P.seen place.old) (P.seen place.new)) }
    ensures front { OnErr result (((P.seen place.new).files ≡ (P.seen place.old).files)
        ⊎ Wrote [] (Some (record { name = name.now; bytes = bytes.now })) (P.seen place.old) (P.seen place.new)) }
    ensures input { KeepsInput (P.seen place.old) (P.seen place.new) }
    ensures cause { HasBlame (P.seen place.old) (P.seen place.new) result
        (IsOneOf (writing name.now ∷ [])) }
    ensures once { PlaceStops (is_err result) (P.seen place.old) (P.seen place.new) }
{
    place.create(name)?;
    place.put(bytes)
}
