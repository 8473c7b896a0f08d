//! The times of a live run's opening and close, by the marks of its record.
ghost use Rattle.std.specs.Prelude.{◌≡◌, [], ℕ, List, Option, None, IfOk, IfSome};
ghost use Rattle.pcap_file.specs.Entries.{entries_of};
ghost use Rattle.pcap_file.specs.ReadBuffer.{octets_of};
ghost use Rattle.pcap_file.specs.Reader.{HasReturned, IsNext, part_entries};
ghost use Rattle.pcap_replay.specs.Record as spec;

use pcap_file::{
    BlockParser, CaptureBlock, ReadBuffer, ReaderFault, RecordMark, has_block, next_block,
    open_reader,
};
use std::alloc::Global;
use std::io::Read;

/// Returns the time at which the studio of a live run was opened, in sampling instants at 48 kHz, if the file is the
/// record of one: the first mark, before its first packet, has it. It reads up to the first mark or packet, or to the
/// file's end or fault. Returns an error if an allocation or a read fails, the header is wrong, or a record or block is
/// too long.
pub fn record_opening<R: Read>(alloc: Global, reader: &mut R) -> Result<Option<u64>, ReaderFault>
    ensures { IfOk result (λ given. IfSome (R.remaining reader.old) (λ file. spec.opening_in (entries_of file)
        ≡ given)) }
{
    let (mut window, mut parts) = open_reader(alloc, reader)?;
    find_opening(&mut parts, &mut window, reader)
}

/// Returns the time of the opening by what is left of a file that had no mark and no packet so far.
fn find_opening<R: Read>(
    parts: &mut BlockParser,
    window: &mut ReadBuffer,
    reader: &mut R,
) -> Result<Option<u64>, ReaderFault>
    ensures { IfOk result (λ given. (file : List ℕ)
        → HasReturned file [] (R.remaining reader.old) parts.old (octets_of window.old) window.old.ended
        → spec.opening_in (entries_of file) ≡ given) }
{
    // The label names the loop in its proof.
    'parts: for _ in 0..u64::MAX {
        if !has_block(parts, window, reader)? {
            return Ok(None);
        }
        if let Some(opening) = opening_at_next(parts, window) {
            return Ok(opening);
        }
    }
    Err(ReaderFault::ReadFailed)
}

/// Returns the time of the opening if the next record or block decides it, or passes over that. A fault decides that
/// there is none.
fn opening_at_next(parts: &mut BlockParser, window: &mut ReadBuffer) -> Option<Option<u64>>
    requires { IsNext parts.old (octets_of window.old) window.old.ended }
    ensures decided { IfSome result (λ given. (file : List ℕ) (left : Option (List ℕ))
        → HasReturned file [] left parts.old (octets_of window.old) window.old.ended
        → spec.opening_in (entries_of file) ≡ given) }
    ensures passed { result ≡ None → (file : List ℕ) (left : Option (List ℕ))
        → HasReturned file [] left parts.old (octets_of window.old) window.old.ended
        → HasReturned file [] left parts.new (octets_of window.new) window.new.ended }
{
    let (len, decided) = match next_block(parts, window) {
        Ok(part) => (part.len, opening_decided(&part)),
        Err(_fault) => return Some(None),
    };
    if decided.is_none() {
        window.consume(len);
    }
    decided
}

/// Returns the time of the opening by a record or a block, if that decides it.
fn opening_decided(part: &CaptureBlock<'_>) -> Option<Option<u64>>
    ensures { result ≡ spec.opening_decided (part_entries part.now) }
{
    match part.packet {
        // A record has its opening before its first packet, so this file is none.
        Some(_packet) => Some(None),
        None => match part.mark {
            Some(mark) => Some(opened_at(mark)),
            None => None,
        },
    }
}

/// Returns the time of an opening's mark.
fn opened_at(mark: RecordMark) -> Option<u64>
    ensures { result ≡ spec.opening_by mark }
{
    match mark {
        RecordMark::Opened(open_at) => Some(open_at),
        RecordMark::Closed(_) => None,
    }
}

/// Returns the time of the first close, in nanoseconds from the opening on, by that of the marks so far and one more
/// mark.
pub(crate) fn first_close(closing: Option<u64>, mark: Option<RecordMark>) -> Option<u64>
    ensures { result ≡ spec.closing_with closing mark }
{
    match (closing, mark) {
        (None, Some(RecordMark::Closed(time))) => Some(time),
        (closing, _) => closing,
    }
}
