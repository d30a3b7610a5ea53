//! The scanner: what it keeps, its calls, and one byte's step.
ghost use Rattle.std.specs.Prelude.{◌≡◌, ◌≢◌, ◌+◌, ◌-◌, ◌<◌, ◌≤◌, List, [], ◌∷◌, ◌++◌, ℕ, length, take, OnOk, OnErr, IfErr, IfOk};
ghost use Rattle.mpeg_scan.specs.declared.refusal.Scan.{Scan};
ghost use Rattle.mpeg_scan.specs.declared.piece.Piece.{Piece};
ghost use Rattle.mpeg_scan.specs.Refusals.{Refuses, IsAccepted, max_stream};
ghost use Rattle.mpeg_scan.specs.Pieces.{pieces_of, StandOnEnd};
ghost use Rattle.mpeg_scan.specs.Scanning.{HasRead, HasRefused, HasStopped, HasGrown, IsFrontOf, added};
ghost use Rattle.mpeg_scan.specs.inside.Moves.{Advances};

mod decide;
mod skip;

use crate::codes::{is_opener_code, kind_of_type, type_of};
use crate::piece::Piece;
use crate::refusal::Scan;
use pet_base::Kind;

/// Cuts a stream that comes in portions into pieces.
#[derive(Drop)]
pub struct Scanner {
    /// How many bytes were read.
    at: u64,
    /// The last bytes, the newest first, and 255 before the stream.
    back1: u8,
    back2: u8,
    back3: u8,
    back4: u8,
    back5: u8,
    /// Whether the first opener has come.
    opened: bool,
    /// Where the piece of the last opener begins, and 0 before there is one.
    from: u64,
    /// The code of that opener.
    code: u8,
    /// The kind of that piece, so far as it is known.
    kind: Kind,
    refused: Option<Scan>,
}

impl Scanner {
    /// A scanner that has read nothing. It takes no memory.
    pub fn new() -> Scanner
        ensures { HasRead result [] [] }
    {
        Scanner {
            at: 0,
            back1: 255,
            back2: 255,
            back3: 255,
            back4: 255,
            back5: 255,
            opened: false,
            from: 0,
            code: 0,
            kind: Kind::Head,
            refused: None,
        }
    }

    /// Reads the next portion of the stream, and appends each piece whose successor's opener became known.
    ///
    /// It refuses where the portion decides a refusal of the stream, or this scanner refused before.
    pub fn feed(&mut self, portion: &[u8], pieces: &mut Vec<Piece>) -> Result<(), Scan>
        // The vector has its old content and what was appended.
        ensures grows { HasGrown pieces.old.items pieces.new.items }
        // The scanner has then read the portion too, and nothing is refused so far.
        ensures ok { OnOk result ((stream : List ℕ) (given : List Piece) → HasRead self.old stream given
            → HasRead self.new (stream ++ portion.now) (given ++ added pieces.old.items pieces.new.items)) }
        // Unless memory ran out, the stream is refused so, however it goes on.
        ensures refusal { IfErr result (λ scan. scan ≢ Scan.NoMemory → (stream : List ℕ) (given : List Piece) → HasRead self.old stream given
            → (rest : List ℕ) → Refuses (stream ++ portion.now ++ rest) scan) }
        // What was appended since the stream began are then the pieces that had ended before the byte that decides it.
        ensures stopped { IfErr result (λ scan. scan ≢ Scan.NoMemory → (stream : List ℕ) (given : List Piece) → HasRead self.old stream given
            → HasStopped (stream ++ portion.now) scan (given ++ added pieces.old.items pieces.new.items)) }
        // Whatever comes, what was appended since the stream began is a front of its pieces.
        ensures front { (stream : List ℕ) (given : List Piece) → HasRead self.old stream given
            → IsFrontOf (stream ++ portion.now) (given ++ added pieces.old.items pieces.new.items) }
        ensures refused { IfErr result (λ scan. HasRefused self.new scan) }
        ensures again { (scan : Scan) → HasRefused self.old scan
            → (result ≡ Err scan) × HasRefused self.new scan × (pieces.new.items ≡ pieces.old.items) }
    {
        if let Some(scan) = self.refused {
            return Err(scan);
        }
        let mut read = 0;
        while read < portion.len() {
            read += self.read_on(&portion[read..], pieces)?;
        }
        Ok(())
    }

    /// Ends the stream, and appends its last piece. It is called once and last, unless a call refused.
    ///
    /// It refuses where the end decides a refusal of the stream, or this scanner refused before.
    pub fn finish(&mut self, pieces: &mut Vec<Piece>) -> Result<(), Scan>
        // The stream is accepted, and what was appended since it began are its pieces.
        ensures ok { OnOk result ((stream : List ℕ) (given : List Piece) → HasRead self.old stream given
            → IsAccepted stream × (given ++ added pieces.old.items pieces.new.items ≡ pieces_of stream)) }
        ensures grows { HasGrown pieces.old.items pieces.new.items }
        // They stand on end from byte 0 to the end of the stream.
        ensures standing { OnOk result ((stream : List ℕ) (given : List Piece) → HasRead self.old stream given
            → StandOnEnd 0 (pieces_of stream) (length stream) × (length stream ≤ max_stream)) }
        ensures refusal { IfErr result (λ scan. scan ≢ Scan.NoMemory → (stream : List ℕ) (given : List Piece) → HasRead self.old stream given
            → Refuses stream scan) }
        ensures unchanged { OnOk result (self.new ≡ self.old) }
        ensures kept { OnErr result (pieces.new.items ≡ pieces.old.items) }
        ensures refused { IfErr result (λ scan. HasRefused self.new scan) }
        ensures again { (scan : Scan) → HasRefused self.old scan
            → (result ≡ Err scan) × HasRefused self.new scan × (pieces.new.items ≡ pieces.old.items) }
    {
        if let Some(scan) = self.refused {
            return Err(scan);
        }
        if let Some(scan) = self.refusal_at_end() {
            self.refused = Some(scan);
            return Err(scan);
        }
        if pieces.push(self.piece_to(self.at)).is_err() {
            self.refused = Some(Scan::NoMemory);
            return Err(Scan::NoMemory);
        }
        Ok(())
    }

    /// Reads a run of bytes or one byte, and says how many.
    fn read_on(&mut self, ahead: &[u8], pieces: &mut Vec<Piece>) -> Result<usize, Scan>
        requires { 0 < length ahead.now }
        ensures count { IfOk result (λ n. (0 < n) × (n ≤ length ahead.now)) }
        ensures grows { HasGrown pieces.old.items pieces.new.items }
        ensures ok { IfOk result (λ n. (stream : List ℕ) (given : List Piece) → HasRead self.old stream given
            → HasRead self.new (stream ++ take n ahead.now) (given ++ added pieces.old.items pieces.new.items)) }
        ensures refusal { IfErr result (λ scan. scan ≢ Scan.NoMemory → (stream : List ℕ) (given : List Piece) → HasRead self.old stream given
            → (rest : List ℕ) → Refuses (stream ++ ahead.now ++ rest) scan) }
        ensures stopped { IfErr result (λ scan. scan ≢ Scan.NoMemory → (stream : List ℕ) (given : List Piece) → HasRead self.old stream given
            → HasStopped (stream ++ ahead.now) scan (given ++ added pieces.old.items pieces.new.items)) }
        ensures kept { OnErr result (pieces.new.items ≡ pieces.old.items) }
        ensures refused { IfErr result (λ scan. HasRefused self.new scan) }
    {
        let run = self.skippable(ahead);
        if run >= 5 {
            self.skip(&ahead[..run])?;
            return Ok(run);
        }
        self.step(ahead[0], pieces)?;
        Ok(1)
    }

    /// Reads one byte.
    fn step(&mut self, byte: u8, pieces: &mut Vec<Piece>) -> Result<(), Scan>
        ensures grows { HasGrown pieces.old.items pieces.new.items }
        ensures ok { OnOk result ((stream : List ℕ) (given : List Piece) → HasRead self.old stream given
            → HasRead self.new (stream ++ byte ∷ []) (given ++ added pieces.old.items pieces.new.items)) }
        ensures refused { IfErr result (λ scan. HasRefused self.new scan) }
        ensures refusal { IfErr result (λ scan. scan ≢ Scan.NoMemory → (stream : List ℕ) (given : List Piece) → HasRead self.old stream given
            → (rest : List ℕ) → Refuses (stream ++ byte ∷ rest) scan) }
        ensures stopped { IfErr result (λ scan. scan ≢ Scan.NoMemory → (stream : List ℕ) (given : List Piece) → HasRead self.old stream given
            → HasStopped (stream ++ byte ∷ []) scan (given ++ added pieces.old.items pieces.new.items)) }
        ensures kept { OnErr result (pieces.new.items ≡ pieces.old.items) }
    {
        if let Some(scan) = self.refusal_by(byte) {
            self.refused = Some(scan);
            return Err(scan);
        }
        if self.is_at_code() {
            if is_opener_code(byte) {
                if self.opened {
                    let opener = self.at.saturating_sub(3);
                    if pieces.push(self.piece_to(opener)).is_err() {
                        self.refused = Some(Scan::NoMemory);
                        return Err(Scan::NoMemory);
                    }
                    self.from = opener;
                    self.code = byte;
                    self.kind = Kind::Head;
                    self.advance(byte);
                    return Ok(());
                }
                self.opened = true;
                self.code = byte;
                self.kind = Kind::Head;
                self.advance(byte);
                return Ok(());
            }
            self.advance(byte);
            return Ok(());
        }
        if self.is_at_type() {
            self.kind = kind_of_type(type_of(byte));
            self.advance(byte);
            return Ok(());
        }
        self.advance(byte);
        Ok(())
    }

    /// The open piece, to before this byte.
    fn piece_to(&self, to: u64) -> Piece
        ensures { result ≡ record { kind = self.now.kind; code = self.now.code; at = self.now.from; len = to - self.now.from } }
    {
        Piece {
            kind: self.kind,
            code: self.code,
            at: self.from,
            len: to.saturating_sub(self.from),
        }
    }

    /// Reads one byte, and nothing else is known of the pieces.
    fn advance(&mut self, byte: u8)
        requires { self.old.at < max_stream }
        ensures { Advances self.old self.new byte }
    {
        self.back5 = self.back4;
        self.back4 = self.back3;
        self.back3 = self.back2;
        self.back2 = self.back1;
        self.back1 = byte;
        self.at += 1;
    }
}
