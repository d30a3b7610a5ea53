//! The forms of stores, as values.
ghost use Rattle.std.specs.Prelude.{◌≡◌, codes};
ghost use Rattle.pet_base.specs.declared.limits.TheConstants.{TAG_LENGTH, OLD_TAG_LENGTH};
ghost use Rattle.packet_frame.specs.declared.format.TheConstants.{FORMAT, OLD_FORMAT};

use packet_frame::{FORMAT, Format, OLD_FORMAT};
use pet_base::{OLD_TAG_LENGTH, TAG_LENGTH};

/// What tells one form of stores from another.
#[derive(Clone, Copy)]
pub struct StoreForm {
    /// The bytes at the front.
    pub mark: [u8; 4],
    /// The bytes of the tag, at most 32.
    pub tag: usize,
    /// The format of its frames.
    pub frames: Format,
}

/// What a store that is written today begins with.
pub const MARK: [u8; 4] = *b"PTS2";

/// The stores that are written today.
pub const STORE_FORM: StoreForm = StoreForm {
    mark: MARK,
    tag: TAG_LENGTH as usize,
    frames: FORMAT,
};

/// The stores of the first version.
pub const OLD_STORE_FORM: StoreForm = StoreForm {
    mark: *b"PETS",
    tag: OLD_TAG_LENGTH as usize,
    frames: OLD_FORMAT,
};

/// How many bytes stand before the first entry: the mark, the number of the session, and how many datagrams there are.
pub const HEAD_LENGTH: usize = 16;

/// The parts of the forms, and the length of the head. Definitions name the constants alone, so without these clauses every
/// proof would hold of other forms too. It does nothing.
pub fn forms_are()
    ensures mark { (STORE_FORM.mark ≡ codes "PTS2") × (MARK ≡ codes "PTS2") }
    ensures tag { STORE_FORM.tag ≡ TAG_LENGTH }
    ensures frames { STORE_FORM.frames ≡ FORMAT }
    ensures old_mark { OLD_STORE_FORM.mark ≡ codes "PETS" }
    ensures old_tag { OLD_STORE_FORM.tag ≡ OLD_TAG_LENGTH }
    ensures old_frames { OLD_STORE_FORM.frames ≡ OLD_FORMAT }
    ensures head_length { HEAD_LENGTH ≡ 16 }
{}
