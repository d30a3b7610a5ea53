//! The address of a link, as it is spelled: a host, a colon and a port.
ghost use Rattle.std.specs.Prelude.{◌≡◌, option_map};
ghost use Rattle.text_lines.specs.Digits.{number_up_to};
ghost use Rattle.outside_routes.specs.Address.{cut_at_last_colon, is_from, is_port, is_address};

use text_lines::read_number;

/// The greatest port.
const GREATEST_PORT: u32 = 65_535;

/// Whether a text is a host that is not empty, a colon, which is the text's last, and a port: a decimal number without leading
/// zeros from `least` to 65,535.
pub fn is_host_and_port(text: &str, least: u16) -> bool
    ensures { result ≡ is_address least text.now }
{
    match cut(text.as_bytes()) {
        Some((host, port)) => !host.is_empty() && is_port_from(port, least),
        None => false,
    }
}

/// The bytes before the last colon and those behind it.
fn cut(bytes: &[u8]) -> Option<(&[u8], &[u8])>
    ensures { option_map (λ parts. (parts.0.now, parts.1.now)) result
        ≡ cut_at_last_colon bytes.now }
{
    for back in 0..bytes.len() {
        let at = bytes.len() - 1 - back;
        if bytes[at] == b':' {
            return Some((&bytes[..at], &bytes[at + 1..]));
        }
    }
    None
}

/// Whether these digits are a port, and no less than `least`.
fn is_port_from(digits: &[u8], least: u16) -> bool
    ensures { result ≡ is_port least digits.now }
{
    match digits {
        [] | [b'0', _, ..] => false,
        _ => is_number_from(digits, least),
    }
}

/// Whether these bytes are a number of 16 bits in decimal digits, and no less than `least`.
fn is_number_from(digits: &[u8], least: u16) -> bool
    ensures { result ≡ is_from least (number_up_to 65535 digits.now) }
{
    match read_number(digits, GREATEST_PORT) {
        Some(number) => number >= u32::from(least),
        None => false,
    }
}
