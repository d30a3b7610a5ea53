//! The cuts of a text.
ghost use Rattle.std.specs.Prelude.{◌≡◌, ◌<◌, [], ◌∷◌, length, MatchOption, IfSome};
ghost use Rattle.text_cuts.specs.Cuts.{split_at, lines_of};

/// The first line, and the bytes behind its newline.
pub fn first_line(bytes: &[u8]) -> (&[u8], &[u8])
    requires { 0 < length bytes.now }
    ensures lines { lines_of bytes.now ≡ result.0.now ∷ lines_of result.1.now }
    ensures shorter { length result.1.now < length bytes.now }
{
    let (line, behind) = cut(bytes, b'\n');
    match behind {
        Some(behind) => (line, behind),
        None => (line, &[]),
    }
}

/// The bytes in front of the first that has this value, and those behind it; or all bytes, where none has it.
pub fn cut(bytes: &[u8], mark: u8) -> (&[u8], Option<&[u8]>)
    ensures parts { MatchOption result.1 ((result.0.now ≡ bytes.now)
        × (split_at mark bytes.now ≡ result.0.now ∷ []))
        (λ behind. split_at mark bytes.now ≡ result.0.now ∷ split_at mark behind.now) }
    ensures shorter { IfSome result.1 (λ behind. length behind.now < length bytes.now) }
{
    for at in 0..bytes.len() {
        if bytes[at] == mark {
            return (&bytes[..at], Some(&bytes[at + 1..]));
        }
    }
    (bytes, None)
}
