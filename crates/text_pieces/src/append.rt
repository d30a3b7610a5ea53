//! The pieces of a line, which take no memory.
ghost use Rattle.std.specs.Prelude.{◌≡◌, ◌+◌, ◌≤◌, [], ◌++◌, length, codes, decimal};
ghost use Rattle.arrayvec.specs.ArrayVec.{array_vec_len};
ghost use Rattle.text_plan.specs.PlanLines.{hex_text};

use arrayvec::ArrayVec;
use text_plan::hexadecimal_digit;

/// Appends a text, for which there must be room.
pub fn append_text(text: &str, into: &mut ArrayVec<u8, 64>)
    requires { array_vec_len into.old + length text.now ≤ 64 }
    ensures text { into.new.items ≡ into.old.items ++ text.now }
    ensures len { array_vec_len into.new ≡ array_vec_len into.old + length text.now }
{
    let _ = into.try_extend_from_slice(text.as_bytes());
}

/// Leaves words of at most 40 bytes and a number, as a line, in `into`, which must be empty.
pub fn number_line(words: &str, number: u64, into: &mut ArrayVec<u8, 64>)
    requires begun { into.old.items ≡ [] }
    requires short { length words.now ≤ 40 }
    ensures { into.new.items ≡ words.now ++ decimal number ++ codes "\n" }
{
    append_text(words, into);
    append_number(number, into);
    append_text("\n", into);
}

/// Appends a number in decimal digits, of which there are at most 20.
#[tactic(auto, using(crate::proofs::Digits::number_fits))]
pub fn append_number(number: u64, into: &mut ArrayVec<u8, 64>)
    requires { array_vec_len into.old + 20 ≤ 64 }
    ensures text { into.new.items ≡ into.old.items ++ decimal number }
    ensures len { array_vec_len into.new ≤ array_vec_len into.old + 20 }
{
    append_digits(number, into);
}

/// Appends a number below 2^32 in decimal digits, of which there are at most 10.
#[tactic(auto, using(crate::proofs::Digits::count_fits))]
pub fn append_count(number: u32, into: &mut ArrayVec<u8, 64>)
    requires { array_vec_len into.old + 10 ≤ 64 }
    ensures text { into.new.items ≡ into.old.items ++ decimal number }
    ensures len { array_vec_len into.new ≤ array_vec_len into.old + 10 }
{
    append_digits(u64::from(number), into);
}

/// Appends the number of a session in hexadecimal digits, of which there are 16.
pub fn append_session(session: &[u8], into: &mut ArrayVec<u8, 64>)
    requires whole { length session.now ≡ 8 }
    requires room { array_vec_len into.old + 16 ≤ 64 }
    ensures text { into.new.items ≡ into.old.items ++ hex_text session.now }
    ensures len { array_vec_len into.new ≡ array_vec_len into.old + 16 }
{
    for byte in session {
        into.push(hexadecimal_digit(*byte / 16));
        into.push(hexadecimal_digit(*byte % 16));
    }
}

/// Appends a byte in decimal digits, of which there are at most 3.
#[tactic(auto, using(crate::proofs::Digits::byte_fits))]
pub fn append_byte(number: u8, into: &mut ArrayVec<u8, 64>)
    requires { array_vec_len into.old + 3 ≤ 64 }
    ensures text { into.new.items ≡ into.old.items ++ decimal number }
    ensures len { array_vec_len into.new ≤ array_vec_len into.old + 3 }
{
    append_digits(u64::from(number), into);
}

/// Appends the digits of a number, for which there must be room.
#[tactic(auto, using(std::proofs::lemmas::Fmt::decimal_digit))]
fn append_digits(number: u64, into: &mut ArrayVec<u8, 64>)
    requires { array_vec_len into.old + length (decimal number) ≤ 64 }
    ensures text { into.new.items ≡ into.old.items ++ decimal number }
    ensures len { array_vec_len into.new ≡ array_vec_len into.old + length (decimal number) }
{
    if number < 10 {
        into.push(b'0' + number as u8);
        return;
    }
    append_digits(number / 10, into);
    into.push(b'0' + (number % 10) as u8);
}
