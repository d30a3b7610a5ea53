//! The portions of an input, one after another, to its end or one byte past a limit.
ghost use Rattle.std.specs.Prelude.{◌≡◌, ℕ, length, Option, None, Some, IfOk, MatchOption, true, vec_len, is_err};
ghost use Rattle.pet_base.specs.declared.place.Side.TheVariants.{Read};
ghost use Rattle.pet_base.specs.Causes.{Blames};
ghost use Rattle.pet_base.specs.Seen.{Seen, OnlyReads, HasBlame, PlaceStops};
ghost use Rattle.outside_files.specs.declared.portions.TheConstants.{MAX_PORTION};
ghost use Rattle.outside_files.specs.Portions.{IsNoPortion, IsPortion};

use pet_base::{Failed, Place};
use std::alloc::{AllocError, Global};
use std::marker::Model;

/// The most bytes of a portion.
pub const MAX_PORTION: usize = 65_536;

/// How far an input may still be read: to its end, or one byte past a limit.
#[derive(Drop)]
pub struct Portions {
    /// How many bytes are left of the limit; none past it.
    left: Option<u64>,
}

impl Model for Portions {
    ghost Value = { Option ℕ };

    ghost view = { λ p. p.left };
}

impl Portions {
    /// No portion is taken yet.
    pub fn up_to(limit: u64) -> Portions
        ensures { result ≡ Some limit }
    {
        Portions { left: Some(limit) }
    }

    /// Takes the next portion from the front of the input into the buffer, and answers how many bytes it has; none at the end of
    /// the input, or past the limit.
    ///
    /// # Errors
    ///
    /// The call of the place failed, and then its count of faults rose.
    pub fn next<P: Place>(
        &mut self,
        place: &mut P,
        buffer: &mut [u8],
    ) -> Result<Option<usize>, Failed>
        requires input { (P.seen place.old).has_input ≡ true }
        requires room { length buffer.old ≡ MAX_PORTION }
        ensures next { IfOk result (λ next. MatchOption next
            (IsNoPortion self.old (P.seen place.old) (P.seen place.new))
            (λ count. IsPortion count buffer.new self.old self.new (P.seen place.old) (P.seen place.new))) }
        ensures others { OnlyReads (P.seen place.old) (P.seen place.new) }
        ensures cause { HasBlame (P.seen place.old) (P.seen place.new) result
            (Blames Read (P.seen place.old).source) }
        ensures once { PlaceStops (is_err result) (P.seen place.old) (P.seen place.new) }
    {
        let Some(left) = self.left else {
            return Ok(None);
        };
        let most = left.min(MAX_PORTION as u64 - 1) as usize + 1;
        let count = place.take(&mut buffer[..most])?;
        if count == 0 {
            return Ok(None);
        }
        self.left = left.checked_sub(count as u64);
        Ok(Some(count))
    }
}

/// Room for the longest portion.
pub fn portion_room(alloc: Global) -> Result<Vec<u8>, AllocError>
    ensures { IfOk result (λ room. vec_len room ≡ MAX_PORTION) }
{
    vec![in alloc; 0u8; MAX_PORTION]
}
