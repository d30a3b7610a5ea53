//! The reading of a number in decimal digits.
ghost use Rattle.std.specs.Prelude.{◌≡◌, ◌+◌, ◌-◌, ◌*◌, ◌&&◌, Some, None, nat_le, if◌then◌else◌};
ghost use Rattle.text_lines.specs.Digits.{is_digit, number_up_to};

/// The number that these bytes are in decimal digits, where it is no more than `most`. No digits are the number 0.
pub fn read_number(digits: &[u8], most: u32) -> Option<u32>
    ensures { result ≡ number_up_to most digits.now }
{
    let mut value = 0;
    for digit in digits {
        value = with_digit(value, *digit, most)?;
    }
    Some(value)
}

/// The value with one more decimal digit behind it, where that is no more than `most`.
fn with_digit(value: u32, digit: u8, most: u32) -> Option<u32>
    ensures { result ≡ (if is_digit digit && nat_le (10 * value + (digit - 48)) most then Some
        (10 * value + (digit - 48)) else None) }
{
    match digit {
        b'0'..=b'9' => {
            let more = value.checked_mul(10)?.checked_add(u32::from(digit - b'0'))?;
            if more <= most { Some(more) } else { None }
        }
        _ => None,
    }
}
