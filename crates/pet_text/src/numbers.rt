//! A number in a command word.
ghost use Rattle.std.specs.Prelude.{◌≡◌};
ghost use Rattle.pet_text.specs.Words.{plain_number};
ghost use Rattle.pet_text.specs.inside.PlainNumbers.{begins_plain};

/// The number below 2^64 that a word is, in decimal digits without leading zeros.
pub fn read_plain(word: &str) -> Option<u64>
    ensures { result ≡ plain_number word.now }
{
    if !is_begun(word.as_bytes()) {
        return None;
    }
    word.parse::<u64>().ok()
}

/// Whether the bytes begin with a digit, which is 0 only where no other follows.
fn is_begun(digits: &[u8]) -> bool
    ensures { result ≡ begins_plain digits.now }
{
    matches!(digits, [b'0'..=b'9'] | [b'1'..=b'9', _, ..])
}
