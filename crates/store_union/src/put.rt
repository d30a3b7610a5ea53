//! The store of what two stores have together, put to a file.
ghost use Rattle.std.specs.Prelude.{◌≡◌, ◌⊎◌, ◌<◌, ℕ, List, [], ◌∷◌, ◌++◌, length, None, Some, true, is_err, IfOk, OnOk, OnErr, get_or};
ghost use Rattle.sha2.specs.Hashers.{Holds256};
ghost use Rattle.pet_base.specs.declared.place.Side.TheVariants.{Written};
ghost use Rattle.pet_base.specs.Causes.{Blames};
ghost use Rattle.pet_base.specs.Entries.{entry_text};
ghost use Rattle.pet_base.specs.Seen.{Seen, KeepsInput, OnlyWrites, HasBlame, PlaceStops};
ghost use Rattle.outside_files.specs.Outputs.{Puts, PutsPart};
ghost use Rattle.outside_files.specs.Uses.{writing, IsOneOf};
ghost use Rattle.outside_files.specs.Wrote.{Wrote};
ghost use Rattle.packet_frame.specs.Frame.{text};
ghost use Rattle.packet_frame.specs.Refusals.{first_fault};
ghost use Rattle.packet_verdicts.specs.KeptSet.{KeptSet, kept_in_all};
ghost use Rattle.packet_verdicts.specs.Union.{union};
ghost use Rattle.store_text.specs.Files.{store_file};
ghost use Rattle.store_text.specs.Store.{entries_in};
ghost use Rattle.store_text.specs.declared.format.TheConstants.{STORE_FORM};
ghost use Rattle.store_packets.specs.Packets.{HasPackets};
ghost use Rattle.store_union.specs.Joined.{AreJoined};
ghost use Rattle.store_packets.specs.inside.Reading.{frame_of};
ghost use Rattle.store_union.specs.inside.Merging.{IsPlace, IsSpelled, Stand, AreSpelled, frames_of, left_at, left_from, passed, without, merged, both_text};

use crate::told::first_frame;
use crate::union::{StorePlace, begin, pass, skip};
use pet_base::{Failed, Place};
use sha2::{Digest, Sha256};
use store_packets::StorePackets;
use store_text::{put_hashed, put_head, put_tag};

/// Writes the store of all packets that the one or the other has, which are so many, to the file of this name. Where it
/// cannot be written, no file is changed, or a front of the store stands there.
pub fn write_union_file<P: Place>(
    mine: &StorePackets<'_>,
    theirs: &StorePackets<'_>,
    count: u32,
    name: &str,
    place: &mut P,
) -> Result<(), Failed>
    requires joined { (a b : KeptSet) × AreJoined mine.now theirs.now a b × (count ≡ kept_in_all (union a b)) }
    ensures written { OnOk result ((a b : KeptSet) → AreJoined mine.now theirs.now a b
        → Wrote (store_file name.now (union a b) ∷ []) None (P.seen place.old) (P.seen place.new)) }
    ensures front { OnErr result (((P.seen place.new).files ≡ (P.seen place.old).files)
        ⊎ ((a b : KeptSet) → AreJoined mine.now theirs.now a b
        → Wrote [] (Some (store_file name.now (union a b))) (P.seen place.old) (P.seen place.new))) }
    ensures input { KeepsInput (P.seen place.old) (P.seen place.new) }
    ensures cause { HasBlame (P.seen place.old) (P.seen place.new) result
        (IsOneOf (writing name.now ∷ [])) }
    ensures once { PlaceStops (is_err result) (P.seen place.old) (P.seen place.new) }
{
    place.create(name)?;
    put_union(mine, theirs, count, place)
}

/// Puts the store of both.
fn put_union<P: Place>(
    mine: &StorePackets<'_>,
    theirs: &StorePackets<'_>,
    count: u32,
    place: &mut P,
) -> Result<(), Failed>
    requires mine { (a : KeptSet) × HasPackets mine.now a }
    requires theirs { (b : KeptSet) × HasPackets theirs.now b }
    requires count { count ≡ length (merged (frames_of mine.now) (frames_of theirs.now)) }
    requires output { (P.seen place.old).has_output ≡ true }
    ensures puts { OnOk result (Puts (both_text mine.now theirs.now) (P.seen place.old) (P.seen place.new)) }
    ensures part { OnErr result (PutsPart (both_text mine.now theirs.now) (P.seen place.old) (P.seen place.new)) }
    ensures others { OnlyWrites (P.seen place.old) (P.seen place.new) }
    ensures cause { HasBlame (P.seen place.old) (P.seen place.new) result
        (Blames Written (P.seen place.old).target) }
    ensures once { PlaceStops (is_err result) (P.seen place.old) (P.seen place.new) }
{
    known(mine.entries);
    let mut hasher = Sha256::new();
    put_head(&mine.session, count, &mut hasher, place)?;
    put_entries(mine, theirs, &mut hasher, place)?;
    put_tag(hasher, place)
}

/// Bytes are below 256.
fn known(bytes: &[u8])
    ensures { (i : ℕ) → get_or bytes.now i 0 < 256 }
{}

/// Puts the entries of both, by group, then number.
fn put_entries<P: Place>(
    mine: &StorePackets<'_>,
    theirs: &StorePackets<'_>,
    hasher: &mut Sha256,
    place: &mut P,
) -> Result<(), Failed>
    requires mine { Stand mine.now }
    requires theirs { Stand theirs.now }
    requires spelled { AreSpelled mine.now }
    requires output { (P.seen place.old).has_output ≡ true }
    ensures puts { OnOk result (Puts (entries_in STORE_FORM (merged (frames_of mine.now) (frames_of theirs.now)))
        (P.seen place.old) (P.seen place.new)) }
    ensures part { OnErr result (PutsPart (entries_in STORE_FORM (merged (frames_of mine.now) (frames_of theirs.now)))
        (P.seen place.old) (P.seen place.new)) }
    ensures hashed { OnOk result ((m : List ℕ) → Holds256 hasher.old m
        → Holds256 hasher.new
        (m ++ entries_in STORE_FORM (merged (frames_of mine.now) (frames_of theirs.now)))) }
    ensures others { OnlyWrites (P.seen place.old) (P.seen place.new) }
    ensures cause { HasBlame (P.seen place.old) (P.seen place.new) result
        (Blames Written (P.seen place.old).target) }
    ensures once { PlaceStops (is_err result) (P.seen place.old) (P.seen place.new) }
{
    let mut at = begin(mine);
    let mut rest = theirs.entries;
    for _ in 0..theirs.count {
        let (next, after) = first_frame(rest);
        at = put_up_to(at, before(rest, after), next, hasher, place)?;
        rest = after;
    }
    put_hashed(at.rest, hasher, place)
}

/// Puts the entries that come before a packet of the other store, and then its own, and answers the place behind them.
fn put_up_to<'a, P: Place>(
    at: StorePlace<'a>,
    entry: &[u8],
    next: &[u8],
    hasher: &mut Sha256,
    place: &mut P,
) -> Result<StorePlace<'a>, Failed>
    requires place { IsPlace at }
    requires spelled { IsSpelled at }
    requires next { first_fault next.now ≡ None }
    requires entry { entry.now ≡ entry_text (text (frame_of STORE_FORM next.now)) }
    requires output { (P.seen place.old).has_output ≡ true }
    ensures place { IfOk result IsPlace }
    ensures spelled { IfOk result IsSpelled }
    ensures left { IfOk result (λ to. left_at to ≡ without (frame_of STORE_FORM next.now)
        (left_from (frame_of STORE_FORM next.now) (left_at at.entry))) }
    ensures puts { OnOk result (Puts (entries_in STORE_FORM (passed (frame_of STORE_FORM next.now) (left_at at.entry)
        ++ frame_of STORE_FORM next.now ∷ [])) (P.seen place.old) (P.seen place.new)) }
    ensures part { OnErr result (PutsPart (entries_in STORE_FORM (passed (frame_of STORE_FORM next.now) (left_at at.entry)
        ++ frame_of STORE_FORM next.now ∷ [])) (P.seen place.old) (P.seen place.new)) }
    ensures hashed { OnOk result ((m : List ℕ) → Holds256 hasher.old m
        → Holds256 hasher.new (m ++ entries_in STORE_FORM
        (passed (frame_of STORE_FORM next.now) (left_at at.entry) ++ frame_of STORE_FORM next.now ∷ []))) }
    ensures others { OnlyWrites (P.seen place.old) (P.seen place.new) }
    ensures cause { HasBlame (P.seen place.old) (P.seen place.new) result
        (Blames Written (P.seen place.old).target) }
    ensures once { PlaceStops (is_err result) (P.seen place.old) (P.seen place.new) }
{
    let from = pass(at, next);
    put_both(before(at.rest, from.rest), entry, hasher, place)?;
    Ok(skip(from, next))
}

/// What stands before the rest of some bytes.
fn before<'a>(bytes: &'a [u8], rest: &[u8]) -> &'a [u8]
    requires { (front : List ℕ) × (bytes.now ≡ front ++ rest.now) }
    ensures { (front : List ℕ) → bytes.now ≡ front ++ rest.now → result.now ≡ front }
{
    let (front, _) = bytes.split_at(bytes.len() - rest.len());
    front
}

/// Puts bytes and then others to the output, and hashes them.
fn put_both<P: Place>(
    first: &[u8],
    second: &[u8],
    hasher: &mut Sha256,
    place: &mut P,
) -> Result<(), Failed>
    requires output { (P.seen place.old).has_output ≡ true }
    ensures puts { OnOk result (Puts (first.now ++ second.now) (P.seen place.old) (P.seen place.new)) }
    ensures part { OnErr result (PutsPart (first.now ++ second.now) (P.seen place.old) (P.seen place.new)) }
    ensures hashed { OnOk result ((m : List ℕ) → Holds256 hasher.old m
        → Holds256 hasher.new (m ++ (first.now ++ second.now))) }
    ensures others { OnlyWrites (P.seen place.old) (P.seen place.new) }
    ensures cause { HasBlame (P.seen place.old) (P.seen place.new) result
        (Blames Written (P.seen place.old).target) }
    ensures once { PlaceStops (is_err result) (P.seen place.old) (P.seen place.new) }
{
    put_hashed(first, hasher, place)?;
    put_hashed(second, hasher, place)
}
