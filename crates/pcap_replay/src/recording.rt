//! The paths of a record, and their comparison with the configuration of a studio.
ghost use Rattle.std.specs.Prelude.{
  ◌≡◌,
  ◌≤◌,
  ◌+◌,
  ◌++◌,
  ◌↔◌,
  ℕ,
  List,
  Option,
  drop,
  length,
  map,
  option_map,
  IfOk,
  IfSome,
  IsOk,
  IsTrue,
  IsOkAnd,
  None,
  OnOk,
};
ghost use Rattle.std.specs.Option.{option_to_list};
ghost use Rattle.pcap_file.specs.ReadBuffer.{octets_of};
ghost use Rattle.pcap_file.specs.Reader.{IsNext};
ghost use Rattle.pcap_file.specs.Described.{HasDescribed, interfaces_of};
ghost use Rattle.pcap_file.specs.InterfaceTexts.{texts_view};
ghost use Rattle.pcap_file.specs.Blocks.{interface_text};
ghost use Rattle.pcap_replay.specs.RecordedPaths.{
  ArePathsOf,
  AreBehind,
  Begins,
  HasDescription,
  IsOfGains,
  IsPathOf,
  recorded_of,
  texts_of,
};

use pcap_file::{
    BlockParser, InterfaceTexts, ReadBuffer, ReaderFault, RecordedStream, has_block,
    has_whole_block, interface_name, interface_texts, next_block, open_reader,
};
use rtp_stream::StreamSpec;
use rtp_wire::Enc;
use std::alloc::{AllocError, Global};
use std::io::Read;
use thiserror::Error;

/// The letter of a stream's first path.
const FIRST_LETTER: u8 = b'a';

/// The name and the description of the interface of changes of gains.
const GAINS: &[u8] = b"gains";

/// A path of a record: its name, and the description of its stream's configuration, as its interface has them. The
/// interface of changes of gains is listed as a further path.
#[derive(Drop)]
pub struct RecordedPath {
    name: Vec<u8>,
    /// Empty in a record of version 0.3.0 or earlier.
    description: Vec<u8>,
}

/// The first difference between the configuration by which a record was made and that of a studio.
#[derive(Clone, Copy, Debug, PartialEq, Eq, Error)]
pub enum RecordingFault {
    /// The encoding of a stream, by its bits: that of the record, and that of the studio.
    #[error("stream[{0}].encoding is L{1}, not L{2}")]
    Encoding(usize, u8, u8),
    /// The value of another key of a stream: that of the record, and that of the studio.
    #[error("stream[{0}].{1} is {2}, not {3}")]
    Value(usize, &'static str, u16, u16),
    /// The number of streams: that of the record, and that of the studio.
    #[error("it has {0} streams, not {1}")]
    Streams(usize, usize),
    /// The name or the description of an interface is not one that a record has at this place.
    #[error("interface {0} is unknown")]
    Interface(usize),
}

impl RecordedPath {
    /// Returns a copy of the texts of a path's interface. Returns `AllocError` if an allocation fails.
    fn of(alloc: Global, texts: &InterfaceTexts<'_>) -> Result<RecordedPath, AllocError>
        ensures { IfOk result (λ path. texts_of path ≡ texts_view texts.now) }
    {
        Ok(RecordedPath {
            name: copy_of(alloc, texts.name)?,
            description: copy_of(alloc, texts.description)?,
        })
    }

    /// Returns the number of the path's stream, if the name has one.
    fn stream(&self) -> Option<usize> {
        let name = self.name.as_slice();
        // A name is a number, a space and a letter.
        let space = name.len().checked_sub(2)?;
        if name.get(space) != Some(&b' ') {
            return None;
        }
        str::from_utf8(name.get(..space)?).ok()?.parse().ok()
    }

    /// Returns true if this is the path with a letter of the stream with a number, by its name and its description.
    fn is_of(&self, number: u16, stream: &StreamSpec, letter: u8) -> bool
        ensures { IsTrue result ↔ IsPathOf number stream.now letter self.now }
    {
        self.is_named(number, letter) && self.is_described_as(stream)
    }

    /// Returns true if this is the path with a letter of the stream with a number, by its name.
    fn is_named(&self, number: u16, letter: u8) -> bool
        ensures { IsTrue result ↔ (self.now.name.items ≡ interface_text number letter) }
    {
        self.name.as_slice() == interface_name(number, letter).as_slice()
    }

    /// Returns true if this is no path, but the interface of changes of gains, by its name and its description.
    fn is_of_gains(&self) -> bool
        ensures { IsTrue result ↔ IsOfGains self.now }
    {
        self.name.as_slice() == GAINS && self.description.as_slice() == GAINS
    }

    /// Returns true if this path's description is that of a stream, or if it has none, as in records of older versions.
    fn is_described_as(&self, stream: &StreamSpec) -> bool
        ensures { IsTrue result ↔ HasDescription stream.now self.now.description.items }
    {
        if self.description.is_empty() {
            return true;
        }
        self.description.as_slice() == recorded_stream(stream).description().as_slice()
    }
}

/// Returns a copy of some octets. Returns `AllocError` if an allocation fails.
fn copy_of(alloc: Global, octets: &[u8]) -> Result<Vec<u8>, AllocError>
    ensures { IfOk result (λ copy. copy.items ≡ octets.now) }
{
    let mut copy = Vec::with_capacity(alloc, octets.len())?;
    copy.extend_from_slice(octets)?;
    Ok(copy)
}

/// Returns the paths that a capture describes before its first packet, its end or its fault. Returns an error if an
/// allocation or a read fails, the header is wrong, or a record or block is too long.
pub fn recorded_paths<R: Read>(
    alloc: Global,
    reader: &mut R,
) -> Result<Vec<RecordedPath>, ReaderFault>
    ensures { IfOk result (λ paths. IfSome (R.remaining reader.old) (λ file. map texts_of paths.items
        ≡ interfaces_of file)) }
{
    let (mut window, mut parts) = open_reader(alloc, reader)?;
    let mut paths = Vec::new(alloc);
    add_paths(alloc, &mut paths, &mut parts, &mut window, reader)?;
    Ok(paths)
}

/// Adds the paths that the rest of a capture describes before its first packet, its end or its fault.
fn add_paths<R: Read>(
    alloc: Global,
    paths: &mut Vec<RecordedPath>,
    parts: &mut BlockParser,
    window: &mut ReadBuffer,
    reader: &mut R,
) -> Result<(), ReaderFault>
    ensures { OnOk result ((file : List ℕ)
        → HasDescribed file (map texts_of paths.old.items) (R.remaining reader.old) parts.old
        (octets_of window.old) window.old.ended
        → map texts_of paths.new.items ≡ interfaces_of file) }
{
    // The label names the loop in its proof.
    'parts: for _ in 0..u64::MAX {
        if !has_block(parts, window, reader)? {
            return Ok(());
        }
        match add_path(alloc, paths, parts, window)? {
            Some(len) => window.consume(len),
            None => return Ok(()),
        }
    }
    Err(ReaderFault::ReadFailed)
}

/// Adds the path that the next block describes, if it does, and returns the block's length. Returns `None` at a packet
/// or a fault.
fn add_path(
    alloc: Global,
    paths: &mut Vec<RecordedPath>,
    parts: &mut BlockParser,
    window: &ReadBuffer,
) -> Result<Option<usize>, AllocError>
    requires { IsNext parts.old (octets_of window.now) window.now.ended }
    ensures len { IfOk result (λ given. IfSome given (λ len. len ≤ length (octets_of window.now))) }
    ensures described { IfOk result (λ given. IfSome given (λ len. (file : List ℕ) (left : Option (List ℕ))
        → HasDescribed file (map texts_of paths.old.items) left parts.old (octets_of window.now) window.now.ended
        → HasDescribed file (map texts_of paths.new.items) left parts.new (drop len (octets_of window.now))
        window.now.ended)) }
    ensures all { IfOk result (λ given. given ≡ None → (file : List ℕ) (left : Option (List ℕ))
        → HasDescribed file (map texts_of paths.old.items) left parts.old (octets_of window.now) window.now.ended
        → map texts_of paths.new.items ≡ interfaces_of file) }
{
    match next_block(parts, window) {
        Ok(part) => {
            if part.packet.is_some() {
                return Ok(None);
            }
            add_texts(alloc, paths, interface_texts(parts, window, part.len))?;
            Ok(Some(part.len))
        }
        // A fault is left to the replay, which returns it behind the report.
        Err(_fault) => Ok(None),
    }
}

/// Adds a path with the texts of an interface, if there are some.
fn add_texts(
    alloc: Global,
    paths: &mut Vec<RecordedPath>,
    texts: Option<InterfaceTexts<'_>>,
) -> Result<(), AllocError>
    ensures { OnOk result (map texts_of paths.new.items
        ≡ map texts_of paths.old.items ++ option_to_list (option_map texts_view texts.entry)) }
{
    if let Some(texts) = texts {
        paths.push(RecordedPath::of(alloc, &texts)?)?;
    }
    Ok(())
}

/// Returns true if a capture's first packet or first fault is among its first octets. What follows these then changes
/// nothing of what `record_opening` and `recorded_paths` return. Returns an error if an allocation fails, the header is
/// wrong, or a record or block is too long.
pub fn has_first_packet(alloc: Global, front: &[u8]) -> Result<bool, ReaderFault> {
    let mut octets = front;
    let (mut window, mut parts) = open_reader(alloc, &mut octets)?;
    for _ in 0..u64::MAX {
        if !has_whole_block(&parts, &mut window, &mut octets)? {
            return Ok(false);
        }
        match len_before_packet(&mut parts, &window) {
            Some(len) => window.consume(len),
            None => return Ok(true),
        }
    }
    Ok(true)
}

/// Returns the length of the next block, or `None` if it has a packet or a fault.
fn len_before_packet(parts: &mut BlockParser, window: &ReadBuffer) -> Option<usize>
    requires { IsNext parts.old (octets_of window.now) window.now.ended }
    ensures { IfSome result (λ len. len ≤ length (octets_of window.now)) }
{
    match next_block(parts, window) {
        Ok(part) if part.packet.is_none() => Some(part.len),
        _ => None,
    }
}

/// Returns the first difference between the configuration by which a record with these paths was made and a studio's
/// streams, stream by stream; `None` if there is none. Behind all paths a record may have the interface of changes of
/// gains.
pub fn recording_fault(paths: &[RecordedPath], streams: &[StreamSpec]) -> Option<RecordingFault>
    ensures same { result ≡ None → ArePathsOf 0 streams.now paths.now }
    ensures different { length streams.now ≤ 16 → ArePathsOf 0 streams.now paths.now → result ≡ None }
{
    let misplaced = paths_behind(paths, 0, streams).err()?;
    let place = paths.len().saturating_sub(misplaced.len());
    Some(stream_difference(paths, streams).unwrap_or(RecordingFault::Interface(place)))
}

/// Returns nothing if the paths are those of these streams, numbered from `number` on, with the interface of changes
/// of gains behind them or without it. Otherwise returns the paths from the first one on that is not, or the
/// end, if a path is missing there.
fn paths_behind<'a>(
    paths: &'a [RecordedPath],
    number: u16,
    streams: &[StreamSpec],
) -> Result<(), &'a [RecordedPath]>
    ensures same { OnOk result (ArePathsOf number streams.now paths.now) }
    ensures different { number + length streams.now ≤ 16 → ArePathsOf number streams.now paths.now → IsOk result }
{
    let [stream, later @ ..] = streams else {
        return if are_behind(paths) {
            Ok(())
        } else {
            Err(paths)
        };
    };
    let rest = paths_behind_stream(paths, number, stream, FIRST_LETTER, stream.paths())?;
    let Some(next) = number.checked_add(1) else {
        return Err(rest);
    };
    paths_behind(rest, next, later)
}

/// Returns true if these interfaces may be behind all paths: there are none, or one of changes of gains.
fn are_behind(interfaces: &[RecordedPath]) -> bool
    ensures { IsTrue result ↔ AreBehind interfaces.now }
{
    match interfaces {
        [] => true,
        [interface] => interface.is_of_gains(),
        _ => false,
    }
}

/// Returns the paths behind this many paths of a stream, lettered from this letter on. If these are not there,
/// returns the paths from the first one on that is not in its place.
fn paths_behind_stream<'a>(
    paths: &'a [RecordedPath],
    number: u16,
    stream: &StreamSpec,
    letter: u8,
    count: u8,
) -> Result<&'a [RecordedPath], &'a [RecordedPath]>
    requires letters { letter + count ≤ 255 }
    ensures same { IfOk result (λ rest. Begins number stream.now letter count paths.now rest.now) }
    ensures different { (rest : List RecordedPath) → Begins number stream.now letter count paths.now rest
        → IsOkAnd result (λ found. found.now ≡ rest) }
{
    if count == 0 {
        return Ok(paths);
    }
    match paths.split_first() {
        Some((path, rest)) if path.is_of(number, stream, letter) => {
            paths_behind_stream(rest, number, stream, letter + 1, count - 1)
        }
        _ => Err(paths),
    }
}

/// Returns the first difference between the streams of a record with these paths and those of a studio, if there is one
/// other than in the names and the order of the interfaces.
fn stream_difference(paths: &[RecordedPath], streams: &[StreamSpec]) -> Option<RecordingFault> {
    for (number, stream) in streams.iter().enumerate() {
        let fault = stream_fault(paths, number, stream);
        if fault.is_some() {
            return fault;
        }
    }
    let recorded = paths
        .iter()
        .filter(|path| path.name.as_slice().last() == Some(&b'a'))
        .count();
    if recorded != streams.len() {
        return Some(RecordingFault::Streams(recorded, streams.len()));
    }
    None
}

/// Returns the first difference between a recorded stream and a stream of a studio.
fn stream_fault(
    paths: &[RecordedPath],
    number: usize,
    stream: &StreamSpec,
) -> Option<RecordingFault> {
    let first = paths.iter().find(|path| path.stream() == Some(number))?;
    let count = paths
        .iter()
        .filter(|path| path.stream() == Some(number))
        .count();
    let recorded = RecordedStream::of(first.description.as_slice());
    if let Some(recorded) = recorded {
        let fault = value_fault(number, &recorded, &recorded_stream(stream));
        if fault.is_some() {
            return fault;
        }
    }
    if count != usize::from(stream.paths()) {
        let count = u16::try_from(count).unwrap_or(u16::MAX);
        return Some(RecordingFault::Value(number, "paths", count, u16::from(stream.paths())));
    }
    None
}

/// Returns the first value but the number of paths in which a recorded stream differs from a studio's.
fn value_fault(
    number: usize,
    recorded: &RecordedStream,
    own: &RecordedStream,
) -> Option<RecordingFault> {
    if recorded.bits != own.bits {
        return Some(RecordingFault::Encoding(number, recorded.bits, own.bits));
    }
    let values = [
        (
            "channels",
            u16::from(recorded.channels),
            u16::from(own.channels),
        ),
        ("frames", recorded.frames, own.frames),
        ("pt", u16::from(recorded.pt), u16::from(own.pt)),
    ];
    for (key, is, not) in &values {
        if is != not {
            return Some(RecordingFault::Value(number, *key, *is, *not));
        }
    }
    None
}

/// Returns the configuration of a stream as a record has it.
fn recorded_stream(stream: &StreamSpec) -> RecordedStream
    ensures { result ≡ recorded_of stream.now }
{
    RecordedStream {
        bits: match stream.enc() {
            Enc::L16 => 16,
            Enc::L24 => 24,
        },
        channels: stream.channels(),
        frames: stream.frames(),
        pt: stream.pt(),
        paths: stream.paths(),
    }
}
