//! An observer that writes the output of a replay to a WAV file.
ghost use Rattle.std.specs.Prelude.{◌≡◌, ◌≤◌, ◌∷◌, ◌++◌, [], ℕ, List, Some, IfOk, length};
ghost use Rattle.mix_packets.specs.declared.out_spec.Output.{Output};
ghost use Rattle.wav_file.specs.File.{wav_octets};
ghost use Rattle.wav_file.specs.MixSamples.{output_format, samples_in};
ghost use Rattle.wav_runs.specs.WavObserver.{HasFront, HasHead, HasSounded, SoundState};

use mix_packets::OutSpec;
use pcap_replay::ReplayObserver;
use rtp_stream::Path;
use std::io::Write;
use std::marker::Model;
use wav_file::{FileFault, Overwrite, WavFormat, WavWriter};

/// An observer that writes the samples of the output's datagrams to a WAV file. After a failed write it writes no more.
///
/// Call `finish` once the replay has returned `Ok`, and `break_off` after an error.
#[derive(Drop)]
pub struct WavObserver<F: Overwrite> {
    file: F,
    wav: WavWriter,
    /// True if a write failed. A `ReplayObserver` can't return an error, so `finish` does.
    failed: bool,
}

impl<F: Overwrite> Model for WavObserver<F> {
    ghost use Rattle.wav_runs.specs.WavObserver.{SoundState};

    ghost Value = { SoundState };

    ghost view = { λ s. record { made = F.Write.contents s.file; wav = s.wav; failed = s.failed } };
}

impl<F: Overwrite + Drop> WavObserver<F> {
    /// Begins a WAV file of an output's samples in an empty file. Returns `Write` if a write fails.
    pub fn begin(file: F, output: &OutSpec) -> Result<WavObserver<F>, FileFault>
        ensures head { IfOk result (λ sound. F.Write.contents file ≡ Some [] → HasHead sound) }
        ensures format { IfOk result (λ sound. sound.wav.format ≡ output_format output.now) }
        ensures fresh { IfOk result (λ sound. HasSounded sound sound []) }
    {
        let mut file = file;
        let format = WavFormat {
            enc: output.enc(),
            channels: output.channels(),
        };
        match WavWriter::begin(format, &mut file) {
            Ok(wav) => Ok(WavObserver {
                file,
                wav,
                failed: false,
            }),
            Err(_) => Err(FileFault::Write),
        }
    }

    /// Writes the samples of a datagram.
    fn add(&mut self, datagram: &[u8])
        requires header { 12 ≤ length datagram.now }
        requires short { length datagram.now ≤ 1452 }
        ensures { (begun : SoundState) (datagrams : List (List ℕ)) → HasSounded begun self.old datagrams
            → HasSounded begun self.new (datagrams ++ datagram.now ∷ []) }
    {
        if self.failed {
            return;
        }
        // An RTP header has 12 octets (RFC 3550, 5.1): the output has no CSRC list and no extension.
        match self.wav.push(&mut self.file, &datagram[12..]) {
            Ok(()) => {}
            Err(_) => self.failed = true,
        }
    }

    /// Writes the file's sizes, and returns it. Returns `Write` if this or an earlier write fails.
    pub fn finish(self) -> Result<F, FileFault>
        ensures { IfOk result (λ file. (begun : SoundState) (datagrams : List (List ℕ)) → HasHead begun
            → HasSounded begun self datagrams
            → F.Write.contents file ≡ Some (wav_octets begun.wav.format (samples_in begun.wav.format.enc datagrams))) }
    {
        if self.failed {
            // The file still gets the sizes of what was written. Their own failure changes nothing.
            let _ = self.break_off();
            return Err(FileFault::Write);
        }
        let mut file = self.file;
        match self.wav.finish(&mut file) {
            Ok(()) => Ok(file),
            Err(_) => Err(FileFault::Write),
        }
    }

    /// Writes the sizes of the whole payloads after an error of the replay, and returns the file. Returns `Write` if
    /// that write fails.
    pub fn break_off(self) -> Result<F, FileFault>
        ensures { IfOk result (λ file. (begun : SoundState) (datagrams : List (List ℕ)) → HasHead begun
            → HasSounded begun self datagrams
            → HasFront begun.wav.format (F.Write.contents file) datagrams) }
    {
        let mut file = self.file;
        match self.wav.finish_partial(&mut file) {
            Ok(()) => Ok(file),
            Err(_) => Err(FileFault::Write),
        }
    }
}

impl<F: Overwrite + Drop> ReplayObserver for WavObserver<F> {
    ghost heard = { λ begun now _ datagrams. HasSounded begun now datagrams };

    fn arrived(&mut self, _stream: usize, _path: Path, _octets: &[u8]) {}

    fn read(&mut self, _time: i64) {}

    fn closed(&mut self) {}

    fn output(&mut self, datagram: &[u8]) {
        self.add(datagram)
    }
}
