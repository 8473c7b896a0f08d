//! The integers in bodies and queries.
ghost use Rattle.std.specs.Prelude.{◌≡◌};
ghost use Rattle.json.specs.Value.{value_view};
ghost use Rattle.status_page.specs.Integers.{gain_of, index_of, integer_in, integer_of};

use json::Value;

/// The greatest magnitude of a gain: sixteen times, in units of 1/65,536.
const MAX_GAIN: u32 = 1_048_576;

/// Returns the integer that octets are as a text, or `None` if they are none of 64 bits.
pub(crate) fn integer_in_octets(octets: &[u8]) -> Option<i64>
    ensures { result ≡ integer_in octets.now }
{
    match str::from_utf8(octets) {
        Ok(text) => integer_in(text),
        Err(_) => None,
    }
}

/// Returns the integer that a text is, or `None` if it is none of 64 bits.
fn integer_in(text: &str) -> Option<i64>
    ensures { result ≡ integer_in text.now }
{
    text.parse::<i64>().ok()
}

/// Returns the integer that a value is, or `None` if it is none of 64 bits.
pub(crate) fn integer(value: &Value) -> Option<i64>
    ensures { result ≡ integer_of (value_view value.now) }
{
    integer_in(value.as_number()?)
}

/// Returns the gain that a value is, or `None` if it is none.
pub(crate) fn gain(value: &Value) -> Option<i32>
    ensures { result ≡ gain_of (value_view value.now) }
{
    let gain = i32::try_from(integer(value)?).ok()?;
    if gain.unsigned_abs() > MAX_GAIN {
        return None;
    }
    Some(gain)
}

/// Returns the number of an output channel or an input that a value is, or `None` if it is none.
pub(crate) fn index(value: &Value) -> Option<usize>
    ensures { result ≡ index_of (value_view value.now) }
{
    usize::try_from(integer(value)?).ok()
}
