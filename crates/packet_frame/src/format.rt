//! The formats of frames, as values.
ghost use Rattle.std.specs.Prelude.{◌≡◌, codes};

use pet_base::{OLD_TAG_LENGTH, TAG_LENGTH};
use stripe_plan::{BOUNDS, BYTE_BOUNDS, Bounds, OLD_BOUNDS};

/// What tells one format of frames from another.
#[derive(Clone, Copy)]
pub struct Format {
    /// The bytes at the front.
    pub mark: [u8; 4],
    /// The bytes of the tag, at most 32.
    pub tag: usize,
    /// The bytes of the payload for each stripe, at most 2.
    pub word: usize,
    /// What bounds the tables.
    pub bounds: Bounds,
}

/// The frames that are written today.
pub const FORMAT: Format = Format {
    mark: *b"PET2",
    tag: TAG_LENGTH as usize,
    word: 2,
    bounds: BOUNDS,
};

/// The frames of the first version.
pub const OLD_FORMAT: Format = Format {
    mark: *b"PET1",
    tag: OLD_TAG_LENGTH as usize,
    word: 2,
    bounds: OLD_BOUNDS,
};

/// The frames of the byte profile.
pub const BYTE_FORMAT: Format = Format {
    mark: *b"PET8",
    tag: TAG_LENGTH as usize,
    word: 1,
    bounds: BYTE_BOUNDS,
};

/// The parts of the formats. Definitions name the constants alone, so without these clauses every proof would hold of other
/// formats too. It does nothing.
pub fn formats_are()
    ensures mark { FORMAT.mark ≡ codes "PET2" }
    ensures tag { FORMAT.tag ≡ TAG_LENGTH }
    ensures bounds { FORMAT.bounds ≡ BOUNDS }
    ensures old_mark { OLD_FORMAT.mark ≡ codes "PET1" }
    ensures old_tag { OLD_FORMAT.tag ≡ OLD_TAG_LENGTH }
    ensures old_bounds { OLD_FORMAT.bounds ≡ OLD_BOUNDS }
    ensures word { (FORMAT.word ≡ 2) × (OLD_FORMAT.word ≡ 2) × (BYTE_FORMAT.word ≡ 1) }
    ensures byte_mark { BYTE_FORMAT.mark ≡ codes "PET8" }
    ensures byte_tag { BYTE_FORMAT.tag ≡ TAG_LENGTH }
    ensures byte_bounds { BYTE_FORMAT.bounds ≡ BYTE_BOUNDS }
{}
