//! The calls that need no engine: the version of the library, and the text of a code.
ghost use Rattle.std.specs.Prelude.{◌≡◌, length};
ghost use Rattle.darbexum_c.specs.Texts.{fault_text_of, buffer_after};

use crate::texts::{fault_text, write_text};

/// The version of the library, 0.3.0: an octet each for the three numbers.
const VERSION: u32 = 0x000300;

/// Returns the version of the library: an octet each for the three numbers.
#[unsafe(no_mangle)]
pub extern "C" fn darbexum_version() -> u32
    ensures { result ≡ 768 }
{
    VERSION
}

/// Writes the text of a code to the front of `out`, cut so that a 0 fits behind it. Returns the length of the whole
/// text, without the 0.
#[unsafe(no_mangle)]
pub extern "C" fn darbexum_fault_text(code: i32, out: &mut [u8]) -> usize
    ensures text { out.new ≡ buffer_after (fault_text_of code) out.old }
    ensures len { result ≡ length (fault_text_of code) }
{
    let text = fault_text(code).as_bytes();
    write_text(text, out);
    text.len()
}
