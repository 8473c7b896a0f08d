//! The marks of a record, the capture that a live run wrote: the times at which the studio was opened and closed.
ghost use Rattle.std.specs.Prelude.{◌≡◌, ◌≤◌, length, ◌≢◌, ◌==◌, ◌↔◌, ◌<◌, ◌^◌, ℕ, slice_index, IsTrue, IfSome, Some};
ghost use Rattle.pcap_file.specs.Mark as spec;
ghost use Rattle.std.specs.Fmt.{decimal};

use crate::decode::endian::Endian;
use crate::decode::interface::{Interface, time_of, time_units};
use crate::decode::options::option_at;

/// The code of the option that holds a comment.
const COMMENT: u16 = 1;

/// The code of the option that holds the name of a section's writer.
const USER_APPLICATION: u16 = 4;

/// The mark of a record's opening or close, with its time.
#[derive(Clone, Copy, PartialEq, Eq)]
pub enum RecordMark {
    /// A section header of `darbexum`: the time at which the studio was opened, in sampling instants at 48 kHz, below
    /// 2^63.
    Opened(u64),
    /// An interface's statistics: their time in nanoseconds. In a record the studio was closed then.
    Closed(u64),
}

/// Returns the mark of a section header, if its writer is `darbexum` and its comment has the time of the opening.
#[tactic(auto, unfolding(crate::specs::Mark::opened_by))]
pub(crate) fn read_opening(order: Endian, block: &[u8]) -> Option<RecordMark>
    ensures { result ≡ spec.opened_by order block.now }
{
    if block.len() < 28 {
        return None;
    }
    let options = &block[24..block.len() - 4];
    if text_at(order, USER_APPLICATION, options) != b"darbexum".as_slice() {
        return None;
    }
    match opening_in(text_at(order, COMMENT, options)) {
        Some(open_at) => Some(RecordMark::Opened(open_at)),
        None => None,
    }
}

/// Returns the text of an option, or an empty text if there is no such option before the options' end.
pub(crate) fn text_at(order: Endian, code: u16, options: &[u8]) -> &[u8]
    ensures { result.now ≡ spec.text_at order code options.now }
{
    match option_at(order, code, options) {
        Ok(Some(text)) => text,
        // A capture of another program is no record, but it isn't wrong: a cut option is no fault here.
        _ => &[],
    }
}

/// Returns the time of the opening in a comment, if the comment has it.
fn opening_in(comment: &[u8]) -> Option<u64>
    ensures { result ≡ spec.opening_in comment.now }
{
    number_in(comment.strip_prefix(b"open_at ")?)
}

/// Returns the mark of an interface's statistics, if their interface is described and their time fits.
#[tactic(auto, unfolding(crate::specs::Mark::closed_by))]
pub(crate) fn read_closing(
    order: Endian,
    interfaces: &[Interface],
    block: &[u8],
) -> Option<RecordMark>
    ensures { result ≡ spec.closed_by order interfaces.now block.now }
{
    if block.len() < 24 {
        return None;
    }
    let interface = interfaces.get(order.read_u32(block, 8) as usize)?;
    let time = time_of(interface, time_units(order, block))?;
    Some(RecordMark::Closed(time))
}

/// Returns the number below 2^63 that a text spells.
fn number_in(text: &[u8]) -> Option<u64>
    ensures { result ≡ spec.number_in text.now }
{
    decimal_number(text)
}

/// Returns the number below 2^63 that a text spells: decimal digits, with no leading zero but in `0` itself.
pub fn decimal_number(text: &[u8]) -> Option<u64>
    ensures spelled { IfSome result (λ n. text.now ≡ decimal n) }
    ensures small { IfSome result (λ n. n < 2 ^ 63) }
    ensures found { (n : ℕ) → n < 2 ^ 63 → text.now ≡ decimal n → result ≡ Some n }
{
    // `parse` accepts a plus sign and leading zeros, so these are refused first. `studio_run` reads the numbers of a
    // trace by the same rule; no crate below both is about texts.
    if !begins_plainly(text) {
        return None;
    }
    let Ok(digits) = str::from_utf8(text) else {
        return None;
    };
    match digits.parse::<u64>() {
        Ok(number) if number < 1 << 63 => Some(number),
        _ => None,
    }
}

/// Returns true if a text has no plus sign, and no zero before another octet.
fn begins_plainly(text: &[u8]) -> bool
    ensures { IsTrue result ↔ ((slice_index text.now 0 ≢ 43) × (slice_index text.now 0 ≡ 48 → length text.now ≡ 1)) }
{
    match text.first() {
        Some(b'+') => false,
        Some(b'0') => text.len() == 1,
        _ => true,
    }
}
