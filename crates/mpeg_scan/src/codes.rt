//! The codes of start codes, and the types of pictures.
ghost use Rattle.std.specs.Prelude.{◌≡◌, ◌≤◌, ◌/◌, ◌%◌, ◌↔◌, IsTrue};
ghost use Rattle.mpeg_scan.specs.StartCodes as codes;
ghost use Rattle.mpeg_scan.specs.Pieces as pieces;

use pet_base::Kind;

/// Whether a stream may begin with a start code of this code.
pub fn is_head_code(code: u8) -> bool
    ensures { result ≡ codes.is_head_code code }
{
    code == 0xB3 || code == 0xB8
}

/// Whether a start code of this code belongs to a system stream.
pub fn is_system_code(code: u8) -> bool
    ensures { IsTrue result ↔ (0xB9 ≤ code) }
{
    code >= 0xB9
}

/// Whether a start code of this code begins a piece.
pub fn is_opener_code(code: u8) -> bool
    ensures { result ≡ codes.is_opener_code code }
{
    code == 0x00 || code == 0xB3 || code == 0xB7 || code == 0xB8
}

/// The picture's type in the sixth byte of a picture.
pub fn type_of(byte: u8) -> u8
    ensures { result ≡ (byte / 8) % 8 }
{
    (byte / 8) % 8
}

/// Whether this type is that of an I, P, B or D picture.
pub fn is_picture_type(picture_type: u8) -> bool
    ensures { result ≡ codes.is_type picture_type }
{
    picture_type >= 1 && picture_type <= 4
}

/// The kind of a picture of this type.
pub fn kind_of_type(picture_type: u8) -> Kind
    ensures { result ≡ pieces.kind_of_type picture_type }
{
    match picture_type {
        1 => Kind::I,
        2 => Kind::P,
        3 => Kind::B,
        _ => Kind::D,
    }
}
