//! The samples of a stream, written mark by mark.
ghost use Rattle.std.specs.Prelude.{◌≡◌, ◌+◌, ◌≤◌, ◌++◌, ℕ, length, option_copied, take, Some, IfOk, OnErr, OnOk};
ghost use Rattle.std.specs.Io.KnownBytes.{Appends};
ghost use Rattle.std.specs.Option.{option_to_list};
ghost use Rattle.rtp_stream.specs.MarkFacts.{IsTime};
ghost use Rattle.rtp_stream.specs.MarkRef.{body_from, IsShort};
ghost use Rattle.lane_align.specs.Lane.{frames_between};
ghost use Rattle.wav_runs.specs.MixWav.{HasAdded};
ghost use Rattle.wav_file.specs.Header.{header_octets};
ghost use Rattle.wav_runs.specs.StreamSamples.{body_samples, gap_samples, samples_behind, stream_format};
ghost use Rattle.wav_file.specs.PartFile.{HasPrefix};
ghost use Rattle.wav_runs.specs.StreamTrack.{HasTracked, first_track};

use rtp_stream::{MarkKindRef, MarkRef, StreamSpec};
use std::io::Write;
use wav_file::{WavFault, WavFormat, WavWriter};

/// The WAV file of a stream while its samples are written.
#[derive(Drop)]
pub(crate) struct StreamTrack {
    pub(crate) wav: WavWriter,
    /// The number of sampling instants of a packet.
    pub(crate) frames: u16,
    /// The media time at which the last slot ends, if there is one.
    pub(crate) end: Option<i64>,
}

impl StreamTrack {
    /// Writes the header of a stream's samples to an empty file. Returns an error if a write fails.
    pub(crate) fn begin<F: Write>(spec: StreamSpec, file: &mut F) -> Result<StreamTrack, WavFault>
        ensures first { IfOk result (λ track. track ≡ first_track spec) }
        ensures ok { OnOk result
            (Appends (F.contents file.old) (F.contents file.new) (header_octets (stream_format spec) 0)) }
        ensures fault { OnErr result ((n : ℕ)
            × Appends (F.contents file.old) (F.contents file.new) (take n (header_octets (stream_format spec) 0))) }
    {
        let format = WavFormat {
            enc: spec.enc(),
            channels: spec.channels(),
        };
        let wav = WavWriter::begin(format, file)?;
        Ok(StreamTrack {
            wav,
            frames: spec.frames(),
            end: None,
        })
    }

    /// Writes the samples of the next mark, if there is one.
    pub(crate) fn add_next<F: Write>(
        &mut self,
        file: &mut F,
        mark: Option<MarkRef<'_>>,
    ) -> Result<(), WavFault>
        ensures ok { OnOk result
            (HasTracked (F.contents file.old) (F.contents file.new) self.old self.new (option_to_list mark.entry)) }
        ensures part { OnErr result (HasPrefix (F.contents file.old) (F.contents file.new) self.old.wav self.new.wav
            (samples_behind self.old.wav.format self.old.frames self.old.end (option_to_list mark.entry))) }
    {
        let Some(mark) = mark else {
            return Ok(());
        };
        match mark.kind() {
            MarkKindRef::Slot { media, payload, .. } => {
                self.add_slot(file, media, payload)?;
                self.end = Some(media + i64::from(self.frames));
                Ok(())
            }
            MarkKindRef::Quiet { .. } | MarkKindRef::End => Ok(()),
        }
    }

    /// Writes silence up to a media time, and the samples of the packet there.
    fn add_slot<F: Write>(
        &mut self,
        file: &mut F,
        media: i64,
        payload: Option<&[u8]>,
    ) -> Result<(), WavFault>
        requires short { IsShort (body_from (option_copied payload)) }
        ensures added { OnOk result (HasAdded (F.contents file.old) (F.contents file.new) self.old.wav self.new.wav
            (gap_samples self.old.wav.format self.old.end media
            ++ body_samples self.old.wav.format self.old.frames (body_from (option_copied payload.entry)))) }
        ensures part { OnErr result (HasPrefix (F.contents file.old) (F.contents file.new) self.old.wav self.new.wav
            (gap_samples self.old.wav.format self.old.end media
            ++ body_samples self.old.wav.format self.old.frames (body_from (option_copied payload.entry)))) }
        ensures frames { self.new.frames ≡ self.old.frames }
    {
        self.add_gap(file, media)?;
        self.add_body(file, payload)
    }

    /// Writes silence up to a media time.
    fn add_gap<F: Write>(&mut self, file: &mut F, media: i64) -> Result<(), WavFault>
        ensures added { OnOk result
            (HasAdded (F.contents file.old) (F.contents file.new) self.old.wav self.new.wav
            (gap_samples self.old.wav.format self.old.end media)) }
        ensures part { OnErr result
            (HasPrefix (F.contents file.old) (F.contents file.new) self.old.wav self.new.wav
            (gap_samples self.old.wav.format self.old.end media)) }
        ensures frames { self.new.frames ≡ self.old.frames }
    {
        match self.end {
            Some(end) => self.wav.push_silence(file, instants_between(end, media)),
            // The file begins with the first slot.
            None => Ok(()),
        }
    }

    /// Writes the samples of a packet's payload, or as much silence if the packet is lost.
    fn add_body<F: Write>(&mut self, file: &mut F, payload: Option<&[u8]>) -> Result<(), WavFault>
        requires short { IsShort (body_from (option_copied payload)) }
        ensures added { OnOk result (HasAdded (F.contents file.old) (F.contents file.new) self.old.wav self.new.wav
            (body_samples self.old.wav.format self.old.frames (body_from (option_copied payload.entry)))) }
        ensures part { OnErr result (HasPrefix (F.contents file.old) (F.contents file.new) self.old.wav self.new.wav
            (body_samples self.old.wav.format self.old.frames (body_from (option_copied payload.entry)))) }
        ensures frames { self.new.frames ≡ self.old.frames }
    {
        match payload {
            Some(octets) => self.wav.push(file, octets),
            None => self.wav.push_silence(file, u64::from(self.frames)),
        }
    }
}

/// Returns the number of sampling instants from one time to another, or 0 if that is earlier.
fn instants_between(from: i64, to: i64) -> u64
    ensures { result ≡ frames_between from to }
{
    if to > from { to.abs_diff(from) } else { 0 }
}
