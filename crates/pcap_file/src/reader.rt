//! The reader of a capture of any length: its records and blocks, one by one, in memory of a fixed size. The submodule
//! holds its buffer.
ghost use Rattle.std.specs.Prelude.{
  ◌≡◌,
  ◌⊎◌,
  ℕ,
  ◌≤◌,
  ◌<◌,
  ◌++◌,
  List,
  [],
  Option,
  length,
  false,
  true,
  take,
  drop,
  IfOk,
  IfErr,
  OnOk,
  OnErr,
  IfSome,
  Some,
  option_map,
};
ghost use Rattle.pcap_file.specs.Entries.{Entry};
ghost use Rattle.pcap_file.specs.ReadBuffer.{octets_of, Reads};
ghost use Rattle.pcap_file.specs.Described.{DescribesNext, HasDescribed, interfaces_of};
ghost use Rattle.pcap_file.specs.InterfaceTexts.{TextsView, texts_as, texts_view};
ghost use Rattle.pcap_file.specs.Packet.{packet_view};
ghost use Rattle.pcap_file.specs.Reader.{
  EndsWith,
  HasEntries,
  HasOpened,
  HasReturned,
  IsCutBehind,
  IsFaultBehind,
  IsFilled,
  IsLong,
  IsNext,
  IsOpenFault,
  cut_fault_of,
  part_entries,
};
ghost use Rattle.pcap_file.specs.declared.fault.ReaderFault.TheVariants.{ReadFailed};

use crate::block_parser::{BlockParser, CaptureBlock};
use crate::decode::interface_texts::InterfaceTexts;
use crate::decode::pcap::FILE_HEADER;
use crate::fault::{CaptureFault, CaptureFaultKind, ReaderFault};
use crate::reader::buffer::ReadBuffer;
use std::alloc::Global;
use std::io::Read;

pub(crate) mod buffer;

/// The greatest number of octets before a record or a block, 2^63.
// A place then stays below 2^64 with the length of a record or a block added, as `BlockParser::next` requires.
const MAX_PLACE: usize = 9_223_372_036_854_775_808;

/// More reads than a record or a block can take, each of which brings an octet or the file's end.
const MAX_READS: u32 = 1_000_000;

/// Opens a capture by the header of its file. Returns an error if the allocation of 1 MiB or a read fails, and the
/// fault of the header if it has one.
pub fn open_reader<R: Read>(
    alloc: Global,
    reader: &mut R,
) -> Result<(ReadBuffer, BlockParser), ReaderFault>
    ensures returned { IfOk result (λ opened. IfSome (R.remaining reader.old) (λ file.
        HasReturned file [] (R.remaining reader.new) opened.1 (octets_of opened.0) opened.0.ended)) }
    ensures described { IfOk result (λ opened. IfSome (R.remaining reader.old) (λ file.
        HasDescribed file [] (R.remaining reader.new) opened.1 (octets_of opened.0) opened.0.ended)) }
    ensures fault { IfErr result (λ fault. IfSome (R.remaining reader.old) (λ file. IsOpenFault file fault)) }
{
    let mut window = ReadBuffer::new(alloc)?;
    fill_header(&mut window, reader)?;
    match BlockParser::open(window.front()) {
        Ok(parts) => {
            window.consume(parts.place());
            Ok((window, parts))
        }
        Err(fault) => Err(ReaderFault::Capture(fault)),
    }
}

/// Reads until the header of a file is there, or the file ends.
fn fill_header<R: Read>(window: &mut ReadBuffer, reader: &mut R) -> Result<(), ReaderFault>
    requires first { octets_of window.old ≡ [] }
    requires going { window.old.ended ≡ false }
    ensures ok { OnOk result (HasOpened (R.remaining reader.old) (R.remaining reader.new)
        (octets_of window.new) window.new.ended) }
    ensures unread { IfErr result (λ fault. fault ≡ ReadFailed) }
{
    // The header of pcap is the longest. The label names the loop in its proof.
    'reads: for _turn in 0..FILE_HEADER {
        if window.front().len() >= FILE_HEADER {
            return Ok(());
        }
        window.read_more(reader)?;
        if window.is_ended() {
            return Ok(());
        }
    }
    Ok(())
}

/// Reads until the next record or block is whole, or the file ends. Returns true if one comes. Returns `ReadFailed` if
/// a read fails, and `TooLong` if the record or block is longer than 983,040 octets or begins behind 2^63.
pub fn has_block<R: Read>(
    parts: &BlockParser,
    window: &mut ReadBuffer,
    reader: &mut R,
) -> Result<bool, ReaderFault>
    ensures returned { OnOk result ((file : List ℕ) (entries : List Entry)
        → HasReturned file entries (R.remaining reader.old) parts.now (octets_of window.old) window.old.ended
        → HasReturned file entries (R.remaining reader.new) parts.now (octets_of window.new) window.new.ended) }
    ensures described { OnOk result ((file : List ℕ) (texts : List TextsView)
        → HasDescribed file texts (R.remaining reader.old) parts.now (octets_of window.old) window.old.ended
        → HasDescribed file texts (R.remaining reader.new) parts.now (octets_of window.new) window.new.ended) }
    ensures next { IfOk result (λ some. some ≡ true → IsNext parts.now (octets_of window.new) window.new.ended) }
    ensures end { IfOk result (λ some. some ≡ false → (file : List ℕ) (entries : List Entry)
        → HasReturned file entries (R.remaining reader.old) parts.now (octets_of window.old) window.old.ended
        → HasEntries file entries) }
    ensures all { IfOk result (λ some. some ≡ false → (file : List ℕ) (texts : List TextsView)
        → HasDescribed file texts (R.remaining reader.old) parts.now (octets_of window.old) window.old.ended
        → interfaces_of file ≡ texts) }
    ensures none { IfOk result (λ some. some ≡ false → octets_of window.new ≡ []) }
    ensures fault { IfErr result (λ fault. IsLong fault) }
{
    fill(parts, window, reader)?;
    if window.front().is_empty() {
        return Ok(false);
    }
    if parts.place() > MAX_PLACE {
        return Err(ReaderFault::TooLong(parts.place()));
    }
    Ok(true)
}

/// Reads as `has_block` does, but returns false too if the file ends within the next record or block, which
/// `cut_fault` then returns.
pub fn has_whole_block<R: Read>(
    parts: &BlockParser,
    window: &mut ReadBuffer,
    reader: &mut R,
) -> Result<bool, ReaderFault>
    ensures returned { OnOk result ((file : List ℕ) (entries : List Entry)
        → HasReturned file entries (R.remaining reader.old) parts.now (octets_of window.old) window.old.ended
        → HasReturned file entries (R.remaining reader.new) parts.now (octets_of window.new) window.new.ended) }
    ensures next { IfOk result (λ some. some ≡ true → IsNext parts.now (octets_of window.new) window.new.ended) }
    ensures end { IfOk result (λ some. some ≡ false → (file : List ℕ) (entries : List Entry)
        → HasReturned file entries (R.remaining reader.old) parts.now (octets_of window.old) window.old.ended
        → HasEntries file entries ⊎ IsCutBehind file entries) }
    ensures cut { IfOk result (λ some. some ≡ false → (file : List ℕ) (entries : List Entry)
        → HasReturned file entries (R.remaining reader.old) parts.now (octets_of window.old) window.old.ended
        → EndsWith file entries (cut_fault_of parts.now (octets_of window.new))) }
    ensures fault { IfErr result (λ fault. IsLong fault) }
{
    if !has_block(parts, window, reader)? {
        return Ok(false);
    }
    if parts.is_cut(window.front()) {
        return Ok(false);
    }
    Ok(true)
}

/// Returns the fault of the record or block that the file's end cuts, after `has_whole_block` returned false; `None` if
/// the file ends with a whole one.
pub fn cut_fault(parts: &BlockParser, window: &ReadBuffer) -> Option<CaptureFault>
    ensures { result ≡ cut_fault_of parts.now (octets_of window.now) }
{
    match window.front() {
        [] => None,
        _ => Some(CaptureFault {
            place: parts.place(),
            kind: CaptureFaultKind::Truncated,
        }),
    }
}

/// Returns the name and the description of an interface, if the block of `len` octets that `next_block` returned
/// describes one.
#[tactic(auto, using(crate::proofs::DescribedLemmas::block_front))]
pub fn interface_texts<'a>(
    parts: &BlockParser,
    window: &'a ReadBuffer,
    len: usize,
) -> Option<InterfaceTexts<'a>>
    ensures texts { IfSome result (λ texts. Some (texts_view texts)
        ≡ texts_as parts.now.format parts.now.section.order (take len (take 983040 (octets_of window.now)))) }
    ensures block { len ≤ length (take 983040 (octets_of window.now)) → option_map texts_view result
        ≡ texts_as parts.now.format parts.now.section.order (take len (octets_of window.now)) }
{
    parts.interface_texts(window.front().get(..len)?)
}

/// Reads until the next record or block is whole, or the file ends.
fn fill<R: Read>(
    parts: &BlockParser,
    window: &mut ReadBuffer,
    reader: &mut R,
) -> Result<(), ReaderFault>
    ensures returned { OnOk result ((file : List ℕ) (entries : List Entry)
        → HasReturned file entries (R.remaining reader.old) parts.now (octets_of window.old) window.old.ended
        → HasReturned file entries (R.remaining reader.new) parts.now (octets_of window.new) window.new.ended) }
    ensures described { OnOk result ((file : List ℕ) (texts : List TextsView)
        → HasDescribed file texts (R.remaining reader.old) parts.now (octets_of window.old) window.old.ended
        → HasDescribed file texts (R.remaining reader.new) parts.now (octets_of window.new) window.new.ended) }
    ensures filled { OnOk result (IsFilled parts.now (octets_of window.new) window.new.ended) }
    ensures fault { IfErr result (λ fault. IsLong fault) }
{
    // The label names the loop in its proof.
    'reads: for _turn in 0..MAX_READS {
        if !parts.is_cut(window.front()) {
            return Ok(());
        }
        if window.is_full() {
            return Err(ReaderFault::TooLong(parts.place()));
        }
        // What the file's end cuts is left to `next_block`, which returns the fault.
        if window.is_ended() {
            return Ok(());
        }
        window.read_more(reader)?;
    }
    Err(ReaderFault::ReadFailed)
}

/// Returns the next record or block, after `has_block` returned true. The caller then passes over it with
/// `ReadBuffer::consume`. Returns the capture's first fault, after which nothing more is read.
pub fn next_block<'a>(
    parts: &mut BlockParser,
    window: &'a ReadBuffer,
) -> Result<CaptureBlock<'a>, CaptureFault>
    requires { IsNext parts.old (octets_of window.now) window.now.ended }
    ensures len { IfOk result (λ part. part.len ≤ length (octets_of window.now)) }
    ensures front { IfOk result (λ part. part.len ≤ length (take 983040 (octets_of window.now))) }
    ensures returned { IfOk result (λ part. (file : List ℕ) (entries : List Entry) (left : Option (List ℕ))
        → HasReturned file entries left parts.old (octets_of window.now) window.now.ended
        → HasReturned file (entries ++ part_entries part) left parts.new
        (drop part.len (octets_of window.now)) window.now.ended) }
    ensures described { IfOk result (λ part. (file : List ℕ) (texts : List TextsView) (left : Option (List ℕ))
        → HasDescribed file texts left parts.old (octets_of window.now) window.now.ended
        → DescribesNext file texts left parts.new (octets_of window.now) window.now.ended part.len
        (option_map packet_view part.packet)) }
    ensures fault { IfErr result (λ fault. (file : List ℕ) (entries : List Entry) (left : Option (List ℕ))
        → HasReturned file entries left parts.old (octets_of window.now) window.now.ended
        → IsFaultBehind file entries fault) }
    ensures all { OnErr result ((file : List ℕ) (texts : List TextsView) (left : Option (List ℕ))
        → HasDescribed file texts left parts.old (octets_of window.now) window.now.ended
        → interfaces_of file ≡ texts) }
{
    parts.next(window.front())
}
