//! The places of pictures in their group.
ghost use Rattle.std.specs.Prelude.{◌≡◌, ◌<◌, ◌++◌, ◌∷◌, [], List};
ghost use Rattle.mpeg_scan.specs.declared.piece.Piece.{Piece};
ghost use Rattle.layer_split.specs.Places.{place_behind};
ghost use Rattle.layer_split.specs.Splitting.{HaveCounted, place_in};

use mpeg_scan::Piece;
use pet_base::Kind;

/// How many P pictures and how many B pictures a group has so far, counted as far as 32 bits can.
#[derive(Clone, Copy)]
pub struct Places {
    pub p: u32,
    pub b: u32,
}

impl Places {
    /// Those of a group without a picture.
    pub fn new() -> Places
        ensures { HaveCounted result [] }
    {
        Places { p: 0, b: 0 }
    }

    /// Counts the next piece, and answers its place from 1 on; 1 where it is no P or B picture.
    pub fn take(&mut self, piece: &Piece) -> u32
        ensures counted { (group : List Piece) → HaveCounted self.old group
            → HaveCounted self.new (group ++ piece.now ∷ []) }
        ensures place { (group : List Piece) → HaveCounted self.old group
            → result ≡ place_in piece.now.kind (place_behind group piece.now) }
        ensures some { 0 < result }
    {
        match piece.kind {
            Kind::P => {
                self.p = self.p.saturating_add(1);
                self.p
            }
            Kind::B => {
                self.b = self.b.saturating_add(1);
                self.b
            }
            _ => 1,
        }
    }
}
