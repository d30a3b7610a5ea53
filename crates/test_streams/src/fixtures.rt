//! What the tests share: priorities, pieces, and two groups.
ghost use Rattle.std.specs.Prelude.{◌≡◌, IfSome};

use arrayvec::{ArrayString, ArrayVec};
use mpeg_scan::Piece;
use pet_base::{Kind, MAX_LAYERS};
use priority_file::{KindSet, LayerRule, Priority};
use std::alloc::{AllocError, Global};

/// Two groups of 11 bytes, each a group of pictures and an I picture.
pub const TWO_GROUPS: [u8; 22] = [
    0, 0, 1, 0xB8, 1, 0, 0, 1, 0, 0, 8, 0, 0, 1, 0xB8, 2, 0, 0, 1, 0, 0, 8,
];

/// Layers of kinds and places by their bits, each with its need, where they are a priority.
pub fn priority_of(packets: u16, rules: &[(u32, u16)]) -> Option<Priority>
    ensures { IfSome result (λ p. p.packets ≡ packets) }
{
    let mut layers: ArrayVec<LayerRule, MAX_LAYERS> = ArrayVec::new();
    for (bits, need) in rules {
        let rule = LayerRule {
            name: ArrayString::new(),
            kinds: KindSet { bits: *bits },
            need: *need,
        };
        layers.try_push(rule).ok()?;
    }
    Priority::new(packets, layers)
}

/// Heads, I and D pictures in layer 0, P pictures in layer 1, B pictures in layer 2.
pub fn three_layers(packets: u16, needs: [u16; 3]) -> Option<Priority> {
    priority_of(packets, &[(19, needs[0]), (4, needs[1]), (8, needs[2])])
}

/// A piece of a stream.
pub fn piece(kind: Kind, code: u8, at: u64, len: u64) -> Piece
    ensures { result ≡ record { kind = kind; code = code; at = at; len = len } }
{
    Piece {
        kind,
        code,
        at,
        len,
    }
}

/// The pieces of the example stream: three heads, an I, a P and two B pictures, each with its code and its bytes.
pub const EXAMPLE_PIECES: [(Kind, u8, u64); 7] = [
    (Kind::Head, 0xB3, 6),
    (Kind::Head, 0xB8, 5),
    (Kind::I, 0, 7),
    (Kind::P, 0, 7),
    (Kind::B, 0, 7),
    (Kind::B, 0, 8),
    (Kind::Head, 0xB7, 4),
];

/// Pieces that stand on end from byte 0, each of a kind, with a code, and of so many bytes.
pub fn pieces_on_end(alloc: Global, kinds: &[(Kind, u8, u64)]) -> Result<Vec<Piece>, AllocError> {
    let mut pieces = Vec::new(alloc);
    let mut at = 0u64;
    for (kind, code, len) in kinds {
        pieces.push(piece(*kind, *code, at, *len))?;
        at = at.saturating_add(*len);
    }
    Ok(pieces)
}
