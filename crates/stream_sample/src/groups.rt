//! The groups of the stream.
ghost use Rattle.std.specs.Prelude.{◌≡◌, ◌<◌, ◌≤◌, ◌++◌, [], ◌∷◌, length, take, OnOk, OnErr};
ghost use Rattle.pet_base.specs.declared.limits.TheConstants.{MAX_SAMPLE_GROUPS};
ghost use Rattle.stream_sample.specs.SampleStream.{picture, picture_text, state_behind_picture, pictures_text, state_behind, group_text, state_behind_group, sample_text};

use crate::filler::Filler;
use pet_base::{MAX_SAMPLE_GROUPS, NoMemory};

/// A picture that is made.
#[derive(Clone, Copy, Debug, PartialEq, Eq)]
pub struct Picture {
    /// The byte that tells its type.
    pub kind: u8,
    /// All its bytes.
    pub size: u32,
}

/// The headers that each group begins with: of a sequence, and of a group of pictures.
pub const HEADERS: [u8; 20] = [
    0x00, 0x00, 0x01, 0xB3, 0x16, 0x01, 0x20, 0xC3, 0xFF, 0xFF, 0xE0, 0xA0, 0x00, 0x00, 0x01, 0xB8,
    0x00, 0x08, 0x00, 0x40,
];

/// The bytes of a picture before those that are filled.
pub const PICTURE_HEAD: u32 = 12;

/// An I picture.
const I: Picture = Picture {
    kind: 0x0F,
    size: 19_941,
};

/// A P picture.
const P: Picture = Picture {
    kind: 0x17,
    size: 10_000,
};

/// A B picture.
const B: Picture = Picture {
    kind: 0x1F,
    size: 3_667,
};

/// The last B picture of a group.
const LAST_B: Picture = Picture {
    kind: 0x1F,
    size: 3_665,
};

/// The pictures of each group, in order.
pub const PICTURES: [Picture; 10] = [I, P, B, B, P, B, B, P, B, LAST_B];

/// The headers, the bytes before those that are filled, and the pictures. Definitions name the constants alone, so without
/// these clauses every proof would hold of others too. It does nothing.
pub fn sample_stream_is()
    ensures headers { HEADERS ≡ 0 ∷ 0 ∷ 1 ∷ 0xB3 ∷ 0x16 ∷ 1 ∷ 0x20 ∷ 0xC3 ∷ 0xFF ∷ 0xFF ∷ 0xE0 ∷ 0xA0
        ∷ 0 ∷ 0 ∷ 1 ∷ 0xB8 ∷ 0 ∷ 8 ∷ 0 ∷ 0x40 ∷ [] }
    ensures picture_head { PICTURE_HEAD ≡ 12 }
    ensures pictures { PICTURES ≡ picture 0x0F 19941
        ∷ picture 0x17 10000 ∷ picture 0x1F 3667 ∷ picture 0x1F 3667
        ∷ picture 0x17 10000 ∷ picture 0x1F 3667 ∷ picture 0x1F 3667
        ∷ picture 0x17 10000 ∷ picture 0x1F 3667 ∷ picture 0x1F 3665 ∷ [] }
{}

/// Appends the stream that is made of a seed: so many groups, 1 to 100. After a refusal `into` is as before.
pub fn sample_stream(seed: u64, groups: u32, into: &mut Vec<u8>) -> Result<(), NoMemory>
    requires some { 0 < groups }
    requires few { groups ≤ MAX_SAMPLE_GROUPS }
    ensures ok { OnOk result (into.new.items ≡ into.old.items ++ sample_text seed groups) }
    ensures err { OnErr result (into.new.items ≡ into.old.items) }
{
    let before = into.len();
    let appended = append_groups(seed, groups, into);
    if appended.is_err() {
        into.truncate(before);
    }
    appended
}

/// Appends the groups, of which a front may stand after a refusal.
fn append_groups(seed: u64, groups: u32, into: &mut Vec<u8>) -> Result<(), NoMemory>
    ensures ok { OnOk result (into.new.items ≡ into.old.items ++ sample_text seed groups) }
    ensures err { OnErr result (take (length into.old.items) into.new.items ≡ into.old.items) }
{
    let mut filler = Filler { state: seed };
    for made in 0..groups {
        append_group(&mut filler, into)?;
    }
    Ok(())
}

/// Appends a group, of which a front may stand after a refusal.
fn append_group(filler: &mut Filler, into: &mut Vec<u8>) -> Result<(), NoMemory>
    ensures ok { OnOk result (into.new.items ≡ into.old.items ++ group_text filler.old.state) }
    ensures state { OnOk result (filler.new.state ≡ state_behind_group filler.old.state) }
    ensures err { OnErr result (take (length into.old.items) into.new.items ≡ into.old.items) }
{
    into.extend_from_slice(&HEADERS)?;
    append_pictures(filler, &PICTURES, into)
}

/// Appends some pictures, of which a front may stand after a refusal.
fn append_pictures(
    filler: &mut Filler,
    pictures: &[Picture],
    into: &mut Vec<u8>,
) -> Result<(), NoMemory>
    ensures ok { OnOk result (into.new.items
        ≡ into.old.items ++ pictures_text filler.old.state pictures.now) }
    ensures state { OnOk result (filler.new.state ≡ state_behind filler.old.state pictures.now) }
    ensures err { OnErr result (take (length into.old.items) into.new.items ≡ into.old.items) }
{
    for picture in pictures {
        append_picture(filler, *picture, into)?;
    }
    Ok(())
}

/// Appends a picture, of which a front may stand after a refusal.
fn append_picture(filler: &mut Filler, picture: Picture, into: &mut Vec<u8>) -> Result<(), NoMemory>
    ensures ok { OnOk result (into.new.items
        ≡ into.old.items ++ picture_text filler.old.state picture) }
    ensures state { OnOk result (filler.new.state ≡ state_behind_picture filler.old.state picture) }
    ensures err { OnErr result (take (length into.old.items) into.new.items ≡ into.old.items) }
{
    let head = [0, 0, 1, 0, 0, picture.kind, 0xFF, 0xF8, 0, 0, 1, 1];
    into.extend_from_slice(&head)?;
    filler.fill(picture.size.saturating_sub(PICTURE_HEAD), into)
}
