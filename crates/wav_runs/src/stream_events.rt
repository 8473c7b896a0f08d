//! The WAV file of a stream while the events of a run arrive one by one.
ghost use Rattle.std.specs.Prelude.{◌≡◌, ◌<◌, ◌+◌, ◌∷◌, ◌++◌, [], ℕ, ℤ, List, None, Some, IfOk, true, false};
ghost use Rattle.rtp_stream.specs.declared.stream_spec.Stream.{Stream};
ghost use Rattle.studio_session.specs.Cursor.{HasPulled, IsRunnable};
ghost use Rattle.studio_session.specs.Event.{Arrival, Closing, Tick, TraceEvent};
ghost use Rattle.studio_session.specs.Play.{stream_marks};
ghost use Rattle.studio_session.specs.PushedEvents.{IsHanded};
ghost use Rattle.wav_file.specs.File.{wav_octets};
ghost use Rattle.wav_runs.specs.StreamSamples.{stream_format, stream_samples};

use crate::stream_track::StreamTrack;
use crate::stream_wav::add_taken;
use rtp_stream::Path;
use std::marker::Model;
use studio_session::Cursor;
use wav_file::{FileFault, Overwrite};

/// The WAV file of a stream while the events of a run arrive one by one, those of all streams.
///
/// `write_stream_wav` writes the same samples of a list of events. Call `finish` once the run has ended, or `break_off`
/// after an error of the run. After a failed write no more is written.
#[derive(Drop)]
pub struct StreamWav<F: Overwrite> {
    file: F,
    track: StreamTrack,
    cursor: Cursor,
    /// The number of events that the cursor took.
    count: usize,
    /// True if a write failed, or if an event came that no run has: on a path that the stream lacks, or after
    /// `usize::MAX` others. The calls that take events return no error, so `finish` does.
    failed: bool,
}

impl<F: Overwrite> Model for StreamWav<F> {
    ghost use Rattle.std.specs.Prelude.{◌≡◌};
    ghost use Rattle.std.specs.FinMap as map;
    ghost use Rattle.std.specs.Coded.{codes, coded_ℕ};
    ghost use Rattle.std.specs.Ordering.{nat_cmp};
    ghost use Rattle.rtp_stream.specs.contracts.packet.Packet as packet;
    ghost use Rattle.wav_runs.specs.StreamEvents.{StreamWavState};

    ghost Value = { StreamWavState };

    ghost coded = { Prim.hlevel (codes, map.code {R = nat_cmp} coded_ℕ packet.the_row.coded) };

    ghost view = { λ s. record { made = F.Write.contents s.file; track = s.track; cursor = s.cursor; failed = s.failed } };

    ghost invariant = { λ s. s.cursor.place ≡ s.count };
}

impl<F: Overwrite + Drop> StreamWav<F> {
    ghost use Rattle.wav_runs.specs.StreamEvents.{
      HasFollowed,
      HasFollowedDue,
      HasSamplesFront,
      HasStreamHead,
      StreamWavState,
    };

    /// Begins the WAV file of a cursor's stream in an empty file. The cursor has to be before the first event. Returns
    /// `Write` if a write fails.
    pub fn begin(file: F, cursor: Cursor) -> Result<StreamWav<F>, FileFault>
        requires first { cursor.place ≡ 0 }
        ensures head { IfOk result (λ wav. (stream : Stream) (number : ℕ) (open_at : ℤ)
            → F.Write.contents file ≡ Some [] → HasPulled stream number open_at [] cursor 0
            → HasStreamHead stream number open_at wav) }
        ensures fresh { IfOk result (λ wav. HasFollowed wav wav []) }
    {
        let mut file = file;
        match StreamTrack::begin(cursor.spec(), &mut file) {
            Ok(track) => Ok(StreamWav {
                file,
                track,
                cursor,
                count: 0,
                failed: false,
            }),
            Err(_) => Err(FileFault::Write),
        }
    }

    /// Takes a datagram that arrived on a path of a stream, this one or another.
    pub fn push_datagram(&mut self, stream: usize, path: Path, octets: &[u8])
        ensures { (begun : StreamWavState) (events : List TraceEvent) → HasFollowed begun self.old events
            → HasFollowed begun self.new (events ++ Arrival stream path octets.now ∷ []) }
    {
        if !self.add_due() {
            return;
        }
        if !push_or_skip(&mut self.cursor, stream, path, octets) {
            self.failed = true;
            return;
        }
        self.count += 1;
    }

    /// Takes a clock reading, in sampling instants at 48 kHz.
    pub fn push_tick(&mut self, now: i64)
        ensures { (begun : StreamWavState) (events : List TraceEvent) → HasFollowed begun self.old events
            → HasFollowed begun self.new (events ++ Tick now ∷ []) }
    {
        if !self.add_due() {
            return;
        }
        self.cursor.push_tick(now);
        self.count += 1;
    }

    /// Takes the close, the last event of a run.
    pub fn push_close(&mut self)
        ensures { (begun : StreamWavState) (events : List TraceEvent) → HasFollowed begun self.old events
            → HasFollowed begun self.new (events ++ Closing ∷ []) }
    {
        if !self.add_due() {
            return;
        }
        self.cursor.push_close();
        self.count += 1;
    }

    /// Writes the samples of all marks that are due after the events so far, and the file's sizes. Returns the file, or
    /// `Write` if this or an earlier write fails.
    pub fn finish(self) -> Result<F, FileFault>
        ensures { IfOk result (λ file. (begun : StreamWavState) (stream : Stream) (number : ℕ) (open_at : ℤ)
            (events : List TraceEvent) → HasStreamHead stream number open_at begun
            → IsRunnable stream number open_at events → HasFollowed begun self events
            → F.Write.contents file ≡ Some (wav_octets (stream_format stream)
            (stream_samples stream (stream_marks stream number open_at events)))) }
    {
        let mut wav = self;
        if !wav.add_due() {
            // The file still gets the sizes of what was written. Their own failure changes nothing.
            let _ = wav.break_off();
            return Err(FileFault::Write);
        }
        let mut file = wav.file;
        match wav.track.wav.finish(&mut file) {
            Ok(()) => Ok(file),
            Err(_) => Err(FileFault::Write),
        }
    }

    /// Writes the sizes of what was written after an error of the run, and returns the file. Returns `Write` if that
    /// write fails.
    pub fn break_off(self) -> Result<F, FileFault>
        ensures { IfOk result (λ file. (begun : StreamWavState) (stream : Stream) (number : ℕ) (open_at : ℤ)
            (events : List TraceEvent) → HasStreamHead stream number open_at begun
            → IsRunnable stream number open_at events → HasFollowed begun self events
            → HasSamplesFront (stream_format stream) (F.Write.contents file)
            (stream_samples stream (stream_marks stream number open_at events))) }
    {
        let mut file = self.file;
        match self.track.wav.finish_partial(&mut file) {
            Ok(()) => Ok(file),
            Err(_) => Err(FileFault::Write),
        }
    }

    /// Writes the samples of all marks that are due after the events so far. Returns true if another event can be
    /// taken.
    fn add_due(&mut self) -> bool
        ensures due { result ≡ true → (begun : StreamWavState) (events : List TraceEvent)
            → HasFollowed begun self.old events → HasFollowedDue begun self.new events }
        ensures still { result ≡ false → (begun : StreamWavState) (events : List TraceEvent)
            → HasFollowed begun self.old events → HasFollowed begun self.new events }
        ensures whole { result ≡ true → self.new.failed ≡ false }
        ensures failed { result ≡ false → self.new.failed ≡ true }
        ensures settled { result ≡ true → self.new.cursor.reading ≡ None }
        ensures few { result ≡ true → self.new.cursor.place < usize.MAX }
    {
        if self.failed {
            return false;
        }
        if self.count == usize::MAX {
            self.failed = true;
            return false;
        }
        match add_taken(&mut self.track, &mut self.file, &mut self.cursor) {
            Ok(()) => true,
            Err(_) => {
                self.failed = true;
                false
            }
        }
    }
}

/// Passes a datagram to a cursor, which passes over it if it is another stream's. Returns false if the cursor's stream
/// does not have the path.
fn push_or_skip(cursor: &mut Cursor, stream: usize, path: Path, octets: &[u8]) -> bool
    requires settled { cursor.old.reading ≡ None }
    requires few { cursor.old.place < usize.MAX }
    ensures handed { result ≡ true
        → IsHanded (Arrival stream path octets.now) cursor.old.number cursor.old cursor.new }
    ensures place { result ≡ true → cursor.new.place ≡ cursor.old.place + 1 }
    ensures kept { result ≡ false → cursor.new ≡ cursor.old }
{
    if stream != usize::from(cursor.number()) {
        cursor.skip();
        return true;
    }
    if path.number() >= cursor.spec().paths() {
        return false;
    }
    // The cursor counts the outcome too, and the file needs neither.
    let _ = cursor.push_datagram(path, octets);
    true
}
