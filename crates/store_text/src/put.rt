//! The parts of a store put to the output of a place, piece after piece, and hashed for its tag.
ghost use Rattle.std.specs.Prelude.{◌≡◌, ℕ, List, ◌++◌, true, is_err, OnOk, OnErr};
ghost use Rattle.sha2.specs.Hashers.{Holds256};
ghost use Rattle.pet_base.specs.declared.place.Side.TheVariants.{Written};
ghost use Rattle.pet_base.specs.Causes.{Blames};
ghost use Rattle.pet_base.specs.Seen.{Seen, OnlyWrites, HasBlame, PlaceStops};
ghost use Rattle.outside_files.specs.Outputs.{Puts, PutsPart};
ghost use Rattle.store_text.specs.Form.{store_tag};
ghost use Rattle.store_text.specs.Store.{head_in};
ghost use Rattle.store_text.specs.declared.format.TheConstants.{STORE_FORM};

use crate::format::{HEAD_LENGTH, STORE_FORM};
use pet_base::{Failed, Place};
use sha2::{Digest, Sha256};

/// Puts all that is before the entries of a store of so many datagrams, and hashes it.
///
/// # Errors
///
/// The call of the place failed, and then its count of faults rose; a front of it was put.
pub fn put_head<P: Place>(
    session: &[u8; 8],
    count: u32,
    hasher: &mut Sha256,
    place: &mut P,
) -> Result<(), Failed>
    requires output { (P.seen place.old).has_output ≡ true }
    ensures puts { OnOk result (Puts (head_in STORE_FORM session.now count) (P.seen place.old) (P.seen place.new)) }
    ensures part { OnErr result (PutsPart (head_in STORE_FORM session.now count) (P.seen place.old) (P.seen place.new)) }
    ensures hashed { OnOk result ((m : List ℕ) → Holds256 hasher.old m
        → Holds256 hasher.new (m ++ head_in STORE_FORM session.now count)) }
    ensures others { OnlyWrites (P.seen place.old) (P.seen place.new) }
    ensures cause { HasBlame (P.seen place.old) (P.seen place.new) result
        (Blames Written (P.seen place.old).target) }
    ensures once { PlaceStops (is_err result) (P.seen place.old) (P.seen place.new) }
{
    put_hashed(&head_of(session, count), hasher, place)
}

/// All that is before the entries.
fn head_of(session: &[u8; 8], count: u32) -> [u8; HEAD_LENGTH]
    ensures { result ≡ head_in STORE_FORM session.now count }
{
    let [a, b, c, d] = STORE_FORM.mark;
    let [e, f, g, h, i, j, k, l] = *session;
    let [m, n, o, p] = count.to_be_bytes();
    [a, b, c, d, e, f, g, h, i, j, k, l, m, n, o, p]
}

/// Puts bytes to the output, if there are any, and hashes them.
///
/// # Errors
///
/// The call of the place failed, and then its count of faults rose; a front of the bytes was put.
pub fn put_hashed<P: Place>(bytes: &[u8], hasher: &mut Sha256, place: &mut P) -> Result<(), Failed>
    requires output { (P.seen place.old).has_output ≡ true }
    ensures puts { OnOk result (Puts bytes.now (P.seen place.old) (P.seen place.new)) }
    ensures part { OnErr result (PutsPart bytes.now (P.seen place.old) (P.seen place.new)) }
    ensures hashed { (m : List ℕ) → Holds256 hasher.old m → Holds256 hasher.new (m ++ bytes.now) }
    ensures others { OnlyWrites (P.seen place.old) (P.seen place.new) }
    ensures cause { HasBlame (P.seen place.old) (P.seen place.new) result
        (Blames Written (P.seen place.old).target) }
    ensures once { PlaceStops (is_err result) (P.seen place.old) (P.seen place.new) }
{
    if bytes.is_empty() {
        return Ok(());
    }
    hasher.update(bytes);
    place.put(bytes)
}

/// Puts the tag of a store whose other bytes were hashed.
///
/// # Errors
///
/// The call of the place failed, and then its count of faults rose; a front of the tag was put.
pub fn put_tag<P: Place>(hasher: Sha256, place: &mut P) -> Result<(), Failed>
    requires output { (P.seen place.old).has_output ≡ true }
    ensures puts { OnOk result ((m : List ℕ) → Holds256 hasher m
        → Puts (store_tag STORE_FORM m) (P.seen place.old) (P.seen place.new)) }
    ensures part { OnErr result ((m : List ℕ) → Holds256 hasher m
        → PutsPart (store_tag STORE_FORM m) (P.seen place.old) (P.seen place.new)) }
    ensures others { OnlyWrites (P.seen place.old) (P.seen place.new) }
    ensures cause { HasBlame (P.seen place.old) (P.seen place.new) result
        (Blames Written (P.seen place.old).target) }
    ensures once { PlaceStops (is_err result) (P.seen place.old) (P.seen place.new) }
{
    let digest = hasher.finalize();
    place.put(&digest[..STORE_FORM.tag])
}
