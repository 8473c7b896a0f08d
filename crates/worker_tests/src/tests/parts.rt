//! The WAV files of a mix that is divided, in memory. The contracts know nothing of these files, whose octets are
//! compared here.
ghost use Rattle.std.specs.Prelude.{◌≤◌, length, None};

use super::workers::one_stream;
use live_audio::{AudioChannel, AudioFile, AudioParts, AudioProducer, write_audio};
use std::alloc::Global;
use std::io;
use std::io::{ErrorKind, Write};
use std::process::Abort;
use std::sync::Wait;
use studio_io::{OutputEnd, OutputProgress};
use wav_file::{LiveWavFault, LiveWavFile, WavFiles};

/// The time 2026-11-28T01:01:01Z, in sampling instants since 1970: 20,785 days and 3,661 seconds.
const AT: u64 = 20_785 * 4_147_200_000 + 3_661 * 48_000;

/// The number of octets before the data of a file with a `bext` chunk.
const HEAD: usize = 690;

/// A file in memory. A signal interrupts every other write, from the first one on.
#[derive(Drop)]
struct MemoryFile {
    octets: Vec<u8>,
    /// True if the last write was interrupted.
    was_interrupted: bool,
}

impl Write for MemoryFile {
    fn write(&mut self, buf: &[u8]) -> io::Result<usize> {
        self.was_interrupted = !self.was_interrupted;
        if self.was_interrupted {
            return Err(io::Error::from(ErrorKind::Interrupted));
        }
        match self.octets.extend_from_slice(buf) {
            Ok(()) => Ok(buf.len()),
            Err(_) => Err(io::Error::from(ErrorKind::OutOfMemory)),
        }
    }

    fn flush(&mut self) -> io::Result<()> {
        Ok(())
    }
}

impl LiveWavFile for MemoryFile {
    ghost synced = { λ _. Unit {0} };

    fn sync(&mut self) -> io::Result<()> {
        Ok(())
    }

    fn overwrite(&mut self, octets: &[u8]) -> io::Result<()> {
        if octets.len() > self.octets.len() {
            return Err(io::Error::from(ErrorKind::InvalidInput));
        }
        let len = octets.len();
        self.octets[..len].copy_from_slice(octets);
        Ok(())
    }

    fn cut(&mut self, len: u64) -> io::Result<()> {
        if let Ok(len) = usize::try_from(len) {
            self.octets.truncate(len);
        }
        Ok(())
    }

    fn report(&mut self, _end: OutputEnd, _blocks: u64) {}
}

/// Files in memory. No more are created than `most`.
#[derive(Drop)]
struct MemoryFiles {
    alloc: Global,
    closed: Vec<MemoryFile>,
    most: usize,
}

impl WavFiles for MemoryFiles {
    type File = MemoryFile;

    ghost closed = { λ _. None };

    fn first(&mut self) -> Result<MemoryFile, LiveWavFault> {
        Ok(MemoryFile {
            octets: Vec::new(self.alloc),
            was_interrupted: false,
        })
    }

    fn next(&mut self, file: &mut MemoryFile, _at: u64) -> Result<(), LiveWavFault> {
        if self.closed.len() + 1 >= self.most {
            return Err(LiveWavFault::Exists);
        }
        let Ok(octets) = Vec::from_slice(self.alloc, file.octets.as_slice()) else {
            return Err(LiveWavFault::NotCreated);
        };
        let closed = MemoryFile {
            octets,
            was_interrupted: false,
        };
        if self.closed.push(closed).is_err() {
            return Err(LiveWavFault::NotCreated);
        }
        file.octets.clear();
        Ok(())
    }
}

/// Returns a datagram of a block of six samples of L24, whose octets are `first` and those after it.
fn datagram(first: u8) -> [u8; 30] {
    let mut octets = [0; 30];
    for i in 0..18 {
        octets[12 + i] = first.wrapping_add(i as u8);
    }
    octets
}

/// Returns the samples of that block as a WAV file has them, each with its three octets in the other order.
fn samples(first: u8) -> [u8; 18] {
    let mut octets = [0; 18];
    for i in 0..18 {
        octets[i] = first.wrapping_add((i / 3 * 3 + 2 - i % 3) as u8);
    }
    octets
}

/// Tests that a file has the samples of these blocks, at most three, and a `bext` chunk with the time of `AT` and this
/// number of sampling instants since midnight.
fn has_blocks(rt: &impl Abort, file: &MemoryFile, firsts: &[u8], instant: u64)
    requires { length firsts.now ≤ 3 }
{
    let octets = file.octets.as_slice();
    assert!(rt; octets.len() == HEAD + 18 * firsts.len());
    assert!(rt; octets.get(48..52) == Some(b"bext".as_slice()));
    assert!(rt; octets.get(376..394) == Some(b"2026-11-2801:01:01".as_slice()));
    assert!(rt; octets.get(394..402) == Some(instant.to_le_bytes().as_slice()));
    for number in 0..firsts.len() {
        let start = HEAD + 18 * number;
        let block = octets.get(start..start + 18);
        assert!(rt; block == Some(samples(firsts[number]).as_slice()));
    }
}

/// A mix of seven blocks goes to files of three blocks each. The last file has one. A write that is interrupted is
/// tried again.
#[test]
fn each_file_has_the_blocks_of_its_place(rt: HostRuntime) {
    let (result, files, file) = written(&rt, rt.alloc(), 3);
    assert!(rt; (result.blocks, result.is_all, result.is_whole) == (7, true, true));
    let [first, second] = files.closed.as_slice() else {
        panic!(rt; "two files are closed");
    };
    has_blocks(&rt, first, &[0, 20, 40], 175_728_000);
    has_blocks(&rt, second, &[60, 80, 100], 175_728_018);
    has_blocks(&rt, &file, &[120], 175_728_036);
}

/// A mix whose third file cannot be created ends after the second.
#[test]
fn a_file_that_cannot_be_created_ends_the_audio(rt: HostRuntime) {
    let (result, files, file) = written(&rt, rt.alloc(), 2);
    assert!(rt; (result.blocks, result.is_all, result.is_whole) == (6, false, true));
    let [first] = files.closed.as_slice() else {
        panic!(rt; "one file is closed");
    };
    has_blocks(&rt, first, &[0, 20, 40], 175_728_000);
    has_blocks(&rt, &file, &[60, 80, 100], 175_728_018);
}

/// Writes a mix of seven blocks to files of twenty sampling instants, which have three whole blocks of six. `most`
/// files can be created. Returns the result, the files that are closed and the last one.
fn written<R: Abort + Wait>(
    rt: &R,
    alloc: Global,
    most: usize,
) -> (AudioFile, MemoryFiles, MemoryFile) {
    let studio = one_stream(alloc).expect(rt, "a studio");
    let audio = OutputProgress::new();
    let parts = AudioParts {
        at: AT,
        instants: 20,
    };
    let channel = AudioChannel::new(alloc, &studio, Some(parts), &audio);
    let AudioChannel { producer, writer } = channel.expect(rt, "memory");
    put_all(producer);
    let mut writer = writer;
    let mut files = MemoryFiles {
        alloc,
        closed: Vec::new(alloc),
        most,
    };
    let mut file = MemoryFile {
        octets: Vec::new(alloc),
        was_interrupted: false,
    };
    let result = write_audio(rt, &mut writer, &mut files, &mut file);
    (result, files, file)
}

/// Puts seven blocks, and drops the producer, so that they are all.
fn put_all(producer: AudioProducer<'_>) {
    let mut producer = producer;
    for number in 0..7 {
        producer.put(&datagram(20 * number));
    }
}
