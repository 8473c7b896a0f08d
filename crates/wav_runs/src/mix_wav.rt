//! The report of a trace, with a WAV file of the mix.
ghost use Rattle.std.specs.Prelude.{◌≡◌, IfErr, IfOk, ◌<◌, ◌≤◌, ℕ, List, [], All, OnOk, OnErr};
ghost use Rattle.wav_runs.specs.MixRun.{FailsRecording, RecordsTextOf, IsOfWriters, WritesFront};
ghost use Rattle.wav_file.specs.MixSamples.{output_format};
ghost use Rattle.wav_file.specs.File.{Holds};
ghost use Rattle.wav_runs.specs.BrokenFile.{BreaksOffMix, HasFirst};
ghost use Rattle.mix_packets.specs.OutSpec.{datagram_length};
ghost use Rattle.studio_config.specs.Studio.{Studio};
ghost use Rattle.studio_session.specs.Cursor.{IsReadyFor};
ghost use Rattle.studio_session.specs.Play.{HasPlayed, IsRunnableBy};
ghost use Rattle.wav_runs.specs.MixWav.{HasBoth, HasRecorded, Records};
ghost use Rattle.studio_session.specs.Run.{AreDatagrams};
ghost use Rattle.studio_run.specs.Listing.{datagrams_text};
ghost use Rattle.studio_run.specs.StudioReport.{IsReport};

use crate::fault::WavRunFault;
use mix_packets::MAX_OUTPUT_OCTETS;
use std::alloc::Global;
use std::io::{Read, Write};
use studio_config::StudioSpec;
use studio_run::{TextBuffer, read_all, runnable_events, write_counts, write_datagram};
use studio_session::{EventSource, Session};
use wav_file::{CreateFile, Overwrite, WavFormat, WavWriter};

/// Reads a trace to its end, and writes its report as `play` does and the samples of its datagrams to a file, which it
/// returns. The file is created last, when only a write can still fail. Returns the error of the trace, the report or
/// the file.
pub fn play_to_wav<R: Read, W: Write, M: CreateFile>(
    alloc: Global,
    spec: &StudioSpec,
    reader: &mut R,
    writer: &mut W,
    files: &M,
) -> Result<M::File, WavRunFault>
    ensures ok { IfOk result
        (λ file. RecordsTextOf spec.now (R.remaining reader.old) (R.remaining reader.new) (W.contents writer.old)
        (W.contents writer.new) (M.File.Write.contents file)) }
    ensures fault { IfErr result
        (FailsRecording spec.now (R.remaining reader.old) (R.remaining reader.new) (W.contents writer.old)
        (W.contents writer.new)) }
{
    let trace = read_all(alloc, reader)?;
    let events = runnable_events(alloc, spec, trace.as_slice())?;
    let session = Session::new(alloc, spec)?;
    let mut text = TextBuffer::new(alloc)?;
    let mut file = files.create()?;
    let format = format_of(spec);
    write_mix_wav(&mut text, writer, format, &mut file, &events, session)?;
    Ok(file)
}

/// Returns the format of a studio's output.
fn format_of(spec: &StudioSpec) -> WavFormat
    ensures { result ≡ output_format spec.now.output }
{
    let output = spec.output();
    WavFormat {
        enc: output.enc(),
        channels: output.channels(),
    }
}

/// Writes the report of a session that took no event yet, and its samples to an empty file. Returns the error of a
/// write to either. The file then holds the samples of the first datagrams, whose sizes are set if they can be written,
/// and a part of the next one's.
pub fn write_mix_wav<E: EventSource, W: Write, F: Overwrite>(
    text: &mut TextBuffer,
    writer: &mut W,
    format: WavFormat,
    file: &mut F,
    source: &E,
    session: Session,
) -> Result<(), WavRunFault>
    requires empty { text.old ≡ [] }
    requires short { datagram_length session.mixer.packer.spec ≤ 1452 }
    requires some { 0 < session.mixer.packer.spec.frames }
    requires ready { All (IsReadyFor (E.events source.now)) session.cursors }
    ensures ok { OnOk result ((studio : Studio) → IsRunnableBy studio (E.events source.now)
        → HasPlayed studio (E.events source.now) session 0
        → Records studio (E.events source.now) format (W.contents writer.old) (W.contents writer.new)
        (F.Write.contents file.old) (F.Write.contents file.new)) }
    ensures fault { IfErr result IsOfWriters }
    ensures begun { OnErr result ((studio : Studio) (report : List ℕ) → IsRunnableBy studio (E.events source.now)
        → HasPlayed studio (E.events source.now) session 0
        → IsReport studio (E.events source.now) report
        → WritesFront (W.contents writer.old) [] (W.contents writer.new) report) }
    ensures part { OnErr result ((studio : Studio) (datagrams : List (List ℕ))
        → IsRunnableBy studio (E.events source.now) → HasPlayed studio (E.events source.now) session 0
        → AreDatagrams studio (E.events source.now) datagrams → Holds (F.Write.contents file.old) []
        → BreaksOffMix format datagrams (F.Write.contents file.old) (F.Write.contents file.new)) }
{
    let mut wav = WavWriter::begin(format, file)?;
    match write_both(text, writer, &mut wav, file, source, session) {
        Ok(()) => {
            wav.finish(file)?;
            Ok(())
        }
        Err(fault) => {
            // The first error is returned, whether the sizes can be written or not.
            let _ = wav.finish_partial(file);
            Err(fault)
        }
    }
}

/// Writes the report, and the samples to a file whose header was written.
fn write_both<E: EventSource, W: Write, F: Write>(
    text: &mut TextBuffer,
    writer: &mut W,
    wav: &mut WavWriter,
    file: &mut F,
    source: &E,
    session: Session,
) -> Result<(), WavRunFault>
    requires empty { text.old ≡ [] }
    requires short { datagram_length session.mixer.packer.spec ≤ 1452 }
    requires some { 0 < session.mixer.packer.spec.frames }
    requires ready { All (IsReadyFor (E.events source.now)) session.cursors }
    ensures ok { OnOk result ((studio : Studio) → IsRunnableBy studio (E.events source.now)
        → HasPlayed studio (E.events source.now) session 0
        → HasBoth studio (E.events source.now) (W.contents writer.old) (W.contents writer.new) (F.contents file.old)
        (F.contents file.new) wav.old wav.new) }
    ensures fault { IfErr result IsOfWriters }
    ensures begun { OnErr result ((studio : Studio) (report : List ℕ) → IsRunnableBy studio (E.events source.now)
        → HasPlayed studio (E.events source.now) session 0
        → IsReport studio (E.events source.now) report
        → WritesFront (W.contents writer.old) [] (W.contents writer.new) report) }
    ensures part { OnErr result ((studio : Studio) (datagrams : List (List ℕ))
        → IsRunnableBy studio (E.events source.now) → HasPlayed studio (E.events source.now) session 0
        → AreDatagrams studio (E.events source.now) datagrams
        → HasFirst (F.contents file.old) (F.contents file.new) wav.old wav.new datagrams) }
{
    let mut session = session;
    write_datagrams(text, writer, wav, file, source, &mut session)?;
    let mut cursors = session.into_cursors();
    write_counts(text, writer, source, cursors.as_mut_slice())?;
    text.finish(writer)?;
    Ok(())
}

/// Writes the lines of the datagrams of all blocks that are ready, and their samples.
fn write_datagrams<E: EventSource, W: Write, F: Write>(
    text: &mut TextBuffer,
    writer: &mut W,
    wav: &mut WavWriter,
    file: &mut F,
    source: &E,
    session: &mut Session,
) -> Result<(), WavRunFault>
    requires short { datagram_length session.old.mixer.packer.spec ≤ 1452 }
    requires some { 0 < session.old.mixer.packer.spec.frames }
    requires ready { All (IsReadyFor (E.events source.now)) session.old.cursors }
    ensures ready { All (IsReadyFor (E.events source.now)) session.new.cursors }
    ensures ok { OnOk result ((studio : Studio) → IsRunnableBy studio (E.events source.now)
        → HasPlayed studio (E.events source.now) session.old 0
        → HasRecorded studio (E.events source.now) (W.contents writer.old) text.old
        (F.contents file.old) wav.old session.new (W.contents writer.new) text.new (F.contents file.new) wav.new) }
    ensures fault { IfErr result IsOfWriters }
    ensures begun { OnErr result ((studio : Studio) (datagrams : List (List ℕ))
        → IsRunnableBy studio (E.events source.now) → HasPlayed studio (E.events source.now) session.old 0
        → AreDatagrams studio (E.events source.now) datagrams
        → WritesFront (W.contents writer.old) text.old (W.contents writer.new) (datagrams_text datagrams)) }
    ensures part { OnErr result ((studio : Studio) (datagrams : List (List ℕ))
        → IsRunnableBy studio (E.events source.now) → HasPlayed studio (E.events source.now) session.old 0
        → AreDatagrams studio (E.events source.now) datagrams
        → HasFirst (F.contents file.old) (F.contents file.new) wav.old wav.new datagrams) }
{
    let mut out = [0; MAX_OUTPUT_OCTETS];
    // The label names the loop in its proof.
    'rounds: loop {
        match session.next_datagram(source, &mut out) {
            Some(len) => {
                let datagram = &out[..len];
                write_datagram(text, writer, datagram)?;
                // An RTP header has 12 octets (RFC 3550, 5.1): the output has no CSRC list and no extension.
                wav.push(file, &datagram[12..])?;
            }
            None => return Ok(()),
        }
    }
}
