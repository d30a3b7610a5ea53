//! What a byte or the end decides.
ghost use Rattle.std.specs.Prelude.{◌≡◌, ◌<◌, ◌↔◌, List, ℕ, IfNone, IsTrue};
ghost use Rattle.mpeg_scan.specs.Refusals.{max_stream};
ghost use Rattle.mpeg_scan.specs.declared.piece.Piece.{Piece};
ghost use Rattle.mpeg_scan.specs.Scanning.{HasRead};
ghost use Rattle.mpeg_scan.specs.inside.Moves.{Decides, DecidesAtEnd};

use super::Scanner;
use crate::codes::{is_head_code, is_picture_type, is_system_code, type_of};
use crate::refusal::Scan;
use pet_base::MAX_STREAM;

impl Scanner {
    /// The refusal that the next byte decides.
    pub(super) fn refusal_by(&self, byte: u8) -> Option<Scan>
        ensures decides { (stream : List ℕ) (given : List Piece) → HasRead self.now stream given
            → Decides stream byte result }
        ensures room { IfNone result (self.now.at < max_stream) }
    {
        if self.at >= MAX_STREAM {
            return Some(Scan::TooLong);
        }
        if self.is_at_code() {
            if is_system_code(byte) {
                return Some(Scan::System(self.at.saturating_sub(3)));
            }
            if self.opened {
                return None;
            }
            if is_head_code(byte) {
                return None;
            }
            return Some(Scan::NoHead(self.at.saturating_sub(1)));
        }
        if self.opened {
            if self.is_at_type() {
                let picture_type = type_of(byte);
                if is_picture_type(picture_type) {
                    return None;
                }
                return Some(Scan::PictureType(self.at.saturating_sub(5), picture_type));
            }
            return None;
        }
        if byte == 0 {
            return None;
        }
        if byte == 1 {
            if self.at >= 2 {
                return None;
            }
            return Some(Scan::NoHead(self.at));
        }
        Some(Scan::NoHead(self.at))
    }

    /// The refusal that the end decides.
    pub(super) fn refusal_at_end(&self) -> Option<Scan>
        ensures { (stream : List ℕ) (given : List Piece) → HasRead self.now stream given
            → DecidesAtEnd stream result }
    {
        if self.at == 0 {
            return Some(Scan::Empty);
        }
        if self.opened {
            if self.is_behind_picture() {
                return Some(Scan::ShortPicture(self.at.saturating_sub(4)));
            }
            if self.is_at_type() {
                return Some(Scan::ShortPicture(self.at.saturating_sub(5)));
            }
            return None;
        }
        if self.back1 == 1 {
            return Some(Scan::NoHead(self.at.saturating_sub(1)));
        }
        Some(Scan::NoHead(self.at))
    }

    /// Whether the last three bytes are those before a code.
    pub(super) fn is_at_code(&self) -> bool
        ensures { IsTrue result ↔ ((self.now.back3 ≡ 0) × (self.now.back2 ≡ 0)
            × (self.now.back1 ≡ 1)) }
    {
        self.back3 == 0 && self.back2 == 0 && self.back1 == 1
    }

    /// Whether the last five bytes are those before a picture's type.
    pub(super) fn is_at_type(&self) -> bool
        ensures { IsTrue result ↔ ((self.now.back5 ≡ 0) × (self.now.back4 ≡ 0)
            × (self.now.back3 ≡ 1) × (self.now.back2 ≡ 0)) }
    {
        self.back5 == 0 && self.back4 == 0 && self.back3 == 1 && self.back2 == 0
    }

    /// Whether the last four bytes are a picture's start code.
    fn is_behind_picture(&self) -> bool
        ensures { IsTrue result ↔ ((self.now.back4 ≡ 0) × (self.now.back3 ≡ 0)
            × (self.now.back2 ≡ 1) × (self.now.back1 ≡ 0)) }
    {
        self.back4 == 0 && self.back3 == 0 && self.back2 == 1 && self.back1 == 0
    }
}
