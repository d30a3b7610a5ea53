//! A session number, and an id, in a command word.
ghost use Rattle.std.specs.Prelude.{◌≡◌, ◌<◌, length};
ghost use Rattle.pet_text.specs.Words.{digit_of, byte_of, session_of, id_of};

/// The session number that sixteen digits out of `0` to `9` and `a` to `f` spell.
pub fn read_session(word: &str) -> Option<[u8; 8]>
    ensures { result ≡ session_of word.now }
{
    let digits = word.as_bytes();
    if digits.len() != 16 {
        return None;
    }
    let mut session = [0; 8];
    for at in 0..8 {
        session[at] = read_byte(digits[2 * at], digits[2 * at + 1])?;
    }
    Some(session)
}

/// The id that two such digits spell.
pub fn read_id(word: &str) -> Option<u8>
    ensures { result ≡ id_of word.now }
{
    match word.as_bytes() {
        [high, low] => read_byte(*high, *low),
        _ => None,
    }
}

/// The byte of two digits, the high one first.
fn read_byte(high: u8, low: u8) -> Option<u8>
    ensures { result ≡ byte_of (digit_of high) (digit_of low) }
{
    let high = read_digit(high)?;
    let low = read_digit(low)?;
    Some(high * 16 + low)
}

/// The value of a digit.
fn read_digit(digit: u8) -> Option<u8>
    ensures { result ≡ digit_of digit }
{
    match digit {
        b'0'..=b'9' => Some(digit - b'0'),
        b'a'..=b'f' => Some(digit - b'a' + 10),
        _ => None,
    }
}
