//! The hexadecimal digits of a datagram.
ghost use Rattle.std.specs.Prelude.{◌≡◌, ◌≤◌, ℕ, true, length, take, is_some, IsSome};
ghost use Rattle.std.specs.List.{list_all};
ghost use Rattle.hex.specs.Hex.{is_hex_digit, pair_value};
ghost use Rattle.studio_run.specs.Trace.{octets_of};

use hex::FromHex;
use studio_session::DatagramBuffer;

/// Returns true if an octet is a hexadecimal digit, in either case.
fn is_digit(octet: u8) -> bool
    ensures { result ≡ is_hex_digit octet }
{
    // The test takes no branch, which for digits like random ones would often be predicted wrongly.
    let decimal = octet.wrapping_sub(b'0') < 10;
    let upper = octet.wrapping_sub(b'A') < 6;
    let lower = octet.wrapping_sub(b'a') < 6;
    decimal || upper || lower
}

/// Returns true if all of these octets are hexadecimal digits.
fn are_digits(text: &[u8]) -> bool
    ensures { result ≡ list_all is_hex_digit text.now }
{
    // Each octet is looked at, with no early return, so that the compiler can test many at a time.
    let mut all = true;
    for octet in text {
        all &= is_digit(*octet);
    }
    all
}

/// Returns true if a field spells one or more octets by two hexadecimal digits each. It decodes none.
pub(crate) fn spells_octets(text: &[u8]) -> bool
    ensures { result ≡ is_some (octets_of text.now) }
{
    !text.is_empty() && text.len() % 2 == 0 && are_digits(text)
}

/// Returns the octet that two digits spell, or 0 if they are no digits.
fn octet_of(high: u8, low: u8) -> u8
    ensures { is_hex_digit high ≡ true → is_hex_digit low ≡ true → (place : ℕ) → pair_value high low place ≡ Ok result }
{
    match <[u8; 1] as FromHex>::from_hex([high, low]) {
        Ok(octets) => octets[0],
        // A fault has a value too, so that the compiler can decode many octets at a time.
        Err(_) => 0,
    }
}

/// Decodes the octets that a field spells by two hexadecimal digits each to the start of `buffer`, and returns their
/// number.
pub(crate) fn decode_octets(text: &[u8], buffer: &mut DatagramBuffer) -> usize
    requires short { length text.now ≤ 4096 }
    requires good { IsSome (octets_of text.now) }
    ensures octets { octets_of text.now ≡ Some (take result buffer.new) }
    ensures few { result ≤ 2048 }
{
    let count = text.len() / 2;
    for place in 0..count {
        buffer[place] = octet_of(text[2 * place], text[2 * place + 1]);
    }
    count
}
