//! The calls that fill a struct for C, and change nothing else.
ghost use Rattle.std.specs.Prelude.{
  ◌≡◌,
  ◌<ℤ◌,
  ℕ,
  List,
  pos,
  option_map,
  slice_get,
  Some,
  None,
  IsSomeAnd,
};
ghost use Rattle.rtp_stream.specs.declared.stream_spec.Stream.{Stream as StreamParts};
ghost use Rattle.studio_config.specs.Studio.{Studio};
ghost use Rattle.studio_session.specs.Event.{TraceEvent};
ghost use Rattle.studio_session.specs.Counts as received;
ghost use Rattle.studio_session.specs.Report.{merge_tally_of};
ghost use Rattle.studio_engine.specs.Engine.{EngineState, HasAllMarks, stream_spec_of};
ghost use Rattle.studio_engine.specs.Session.{HasSession};
ghost use Rattle.darbexum_c.specs.Codes as code;
ghost use Rattle.darbexum_c.specs.Records.{output_record, path_tally_in, stream_record, tally_in};

use crate::codes::{NO_ENGINE, NO_PATH, NO_STREAM, SHORT_ROOM};
use crate::handle::Handle;
use crate::records::{
    COUNTS_SIZE, Counts, OUTPUT_SIZE, Output, PATH_COUNTS_SIZE, PathCounts, STREAM_SIZE, Stream,
};
use rtp_stream::Path;
use std::alloc::Global;
use studio_engine::Engine;

/// Writes the fixed values of the output. Returns 0, or a code.
#[unsafe(no_mangle)]
pub extern "C" fn darbexum_output(alloc: Global, handle: &mut Handle, output: &mut Output) -> i32
    ensures value { result ≡ pos 0 → IsSomeAnd handle.old.engine
        (λ engine. output.new ≡ output_record output.old.size engine.mixer.packer.spec) }
    ensures empty { handle.old.engine ≡ None → result ≡ code.no_engine }
    ensures exact { (engine : EngineState) → handle.old.engine ≡ Some engine
        → result ≡ code.size_code_of 40 output.old.size }
    ensures unwritten { result <ℤ pos 0 → output.new ≡ output.old }
    ensures kept { handle.new.engine ≡ handle.old.engine }
{
    let Some(engine) = handle.take(alloc) else {
        return NO_ENGINE;
    };
    let answer = write_output(&engine, output);
    handle.put(engine);
    answer
}

/// Writes the fixed values of the output, if the struct is large enough.
fn write_output(engine: &Engine, output: &mut Output) -> i32
    ensures value { result ≡ pos 0 → output.new ≡ output_record output.old.size engine.now.mixer.packer.spec }
    ensures exact { result ≡ code.size_code_of 40 output.old.size }
    ensures unwritten { result <ℤ pos 0 → output.new ≡ output.old }
{
    let size = output.size;
    if size < OUTPUT_SIZE {
        return SHORT_ROOM;
    }
    *output = Output::of(engine.output(), size);
    0
}

/// Writes the fixed values of a stream. Returns 0, or a code.
#[unsafe(no_mangle)]
pub extern "C" fn darbexum_stream(
    alloc: Global,
    handle: &mut Handle,
    stream: usize,
    out: &mut Stream,
) -> i32
    ensures value { result ≡ pos 0 → IsSomeAnd handle.old.engine
        (λ engine. option_map (stream_record out.old.size) (stream_spec_of (slice_get engine.cursors stream))
        ≡ Some out.new) }
    ensures stands { result ≡ pos 0 → IsSomeAnd handle.old.engine
        (λ engine. (studio : Studio) (events : List TraceEvent) (datagrams : List (List ℕ)) (spec : StreamParts)
        → HasSession studio engine events datagrams → slice_get studio.streams stream ≡ Some spec
        → out.new ≡ stream_record out.old.size spec) }
    ensures empty { handle.old.engine ≡ None → result ≡ code.no_engine }
    ensures exact { (engine : EngineState) → handle.old.engine ≡ Some engine
        → result ≡ code.stream_code_of 40 engine stream out.old.size }
    ensures unwritten { result <ℤ pos 0 → out.new ≡ out.old }
    ensures kept { handle.new.engine ≡ handle.old.engine }
{
    let Some(engine) = handle.take(alloc) else {
        return NO_ENGINE;
    };
    let answer = write_stream(&engine, stream, out);
    handle.put(engine);
    answer
}

/// Writes the fixed values of a stream, if there is the stream and the struct is large enough.
fn write_stream(engine: &Engine, stream: usize, out: &mut Stream) -> i32
    ensures value { result ≡ pos 0
        → option_map (stream_record out.old.size) (stream_spec_of (slice_get engine.now.cursors stream))
        ≡ Some out.new }
    ensures stands { result ≡ pos 0
        → (studio : Studio) (events : List TraceEvent) (datagrams : List (List ℕ)) (spec : StreamParts)
        → HasSession studio engine.now events datagrams → slice_get studio.streams stream ≡ Some spec
        → out.new ≡ stream_record out.old.size spec }
    ensures exact { result ≡ code.stream_code_of 40 engine.now stream out.old.size }
    ensures unwritten { result <ℤ pos 0 → out.new ≡ out.old }
{
    let size = out.size;
    if size < STREAM_SIZE {
        return SHORT_ROOM;
    }
    match engine.stream(stream) {
        Some(spec) => {
            *out = Stream::of(spec, size);
            0
        }
        None => NO_STREAM,
    }
}

/// Writes the counts of a stream's merge. Returns 0, or a code.
#[unsafe(no_mangle)]
pub extern "C" fn darbexum_counts(
    alloc: Global,
    handle: &mut Handle,
    stream: usize,
    counts: &mut Counts,
) -> i32
    ensures whole { result ≡ pos 0 → IsSomeAnd handle.old.engine
        (λ engine. (studio : Studio) (events : List TraceEvent) (datagrams : List (List ℕ)) (spec : StreamParts)
        → HasSession studio engine events datagrams → slice_get studio.streams stream ≡ Some spec
        → HasAllMarks engine
        → tally_in counts.new ≡ merge_tally_of spec stream studio.open_at events) }
    ensures size { counts.new.size ≡ counts.old.size }
    ensures empty { handle.old.engine ≡ None → result ≡ code.no_engine }
    ensures exact { (engine : EngineState) → handle.old.engine ≡ Some engine
        → result ≡ code.stream_code_of 128 engine stream counts.old.size }
    ensures unwritten { result <ℤ pos 0 → counts.new ≡ counts.old }
    ensures kept { handle.new.engine ≡ handle.old.engine }
{
    let Some(engine) = handle.take(alloc) else {
        return NO_ENGINE;
    };
    let answer = write_counts(&engine, stream, counts);
    handle.put(engine);
    answer
}

/// Writes the counts of a stream's merge, if there is the stream and the struct is large enough.
fn write_counts(engine: &Engine, stream: usize, counts: &mut Counts) -> i32
    ensures whole { result ≡ pos 0
        → (studio : Studio) (events : List TraceEvent) (datagrams : List (List ℕ)) (spec : StreamParts)
        → HasSession studio engine.now events datagrams → slice_get studio.streams stream ≡ Some spec
        → HasAllMarks engine.now
        → tally_in counts.new ≡ merge_tally_of spec stream studio.open_at events }
    ensures size { counts.new.size ≡ counts.old.size }
    ensures exact { result ≡ code.stream_code_of 128 engine.now stream counts.old.size }
    ensures unwritten { result <ℤ pos 0 → counts.new ≡ counts.old }
{
    let size = counts.size;
    if size < COUNTS_SIZE {
        return SHORT_ROOM;
    }
    if stream >= engine.streams() {
        return NO_STREAM;
    }
    let Some(found) = engine.counts(stream) else {
        return NO_STREAM;
    };
    let taken_by = found.taken_by;
    *counts = Counts {
        size,
        arrived: found.arrived,
        taken: found.taken,
        taken_by,
        double: found.double,
        unlike: found.unlike,
        off_grid: found.off_grid,
        late: found.late,
        ahead: found.ahead,
        wrong_source: found.wrong_source,
        got: found.got,
        lost: found.lost,
        restarts: found.restarts,
    };
    0
}

/// Writes the counts of the datagrams of a stream's path. Returns 0, or a code.
#[unsafe(no_mangle)]
pub extern "C" fn darbexum_path_counts(
    alloc: Global,
    handle: &mut Handle,
    stream: usize,
    path: u8,
    counts: &mut PathCounts,
) -> i32
    ensures value { result ≡ pos 0 → IsSomeAnd handle.old.engine
        (λ engine. (studio : Studio) (events : List TraceEvent) (datagrams : List (List ℕ)) (spec : StreamParts)
        → HasSession studio engine events datagrams → slice_get studio.streams stream ≡ Some spec
        → path_tally_in counts.new ≡ received.path_counts_of spec stream path events) }
    ensures size { counts.new.size ≡ counts.old.size }
    ensures empty { handle.old.engine ≡ None → result ≡ code.no_engine }
    ensures exact { (engine : EngineState) → handle.old.engine ≡ Some engine
        → result ≡ code.path_code_of 56 engine stream path counts.old.size }
    ensures unwritten { result <ℤ pos 0 → counts.new ≡ counts.old }
    ensures kept { handle.new.engine ≡ handle.old.engine }
{
    let Some(engine) = handle.take(alloc) else {
        return NO_ENGINE;
    };
    let answer = write_path_counts(&engine, stream, path, counts);
    handle.put(engine);
    answer
}

/// Writes the counts of the datagrams of a stream's path, if there is the path and the struct is large enough.
fn write_path_counts(engine: &Engine, stream: usize, path: u8, counts: &mut PathCounts) -> i32
    ensures value { result ≡ pos 0
        → (studio : Studio) (events : List TraceEvent) (datagrams : List (List ℕ)) (spec : StreamParts)
        → HasSession studio engine.now events datagrams → slice_get studio.streams stream ≡ Some spec
        → path_tally_in counts.new ≡ received.path_counts_of spec stream path events }
    ensures size { counts.new.size ≡ counts.old.size }
    ensures exact { result ≡ code.path_code_of 56 engine.now stream path counts.old.size }
    ensures unwritten { result <ℤ pos 0 → counts.new ≡ counts.old }
{
    let size = counts.size;
    if size < PATH_COUNTS_SIZE {
        return SHORT_ROOM;
    }
    let Some(spec) = engine.stream(stream) else {
        return NO_STREAM;
    };
    if path >= spec.paths() {
        return NO_PATH;
    }
    let Some(path) = Path::new(path) else {
        return NO_PATH;
    };
    let Some(found) = engine.path_counts(stream, path) else {
        return NO_STREAM;
    };
    *counts = PathCounts {
        size,
        offered: found.offered,
        sent: found.sent,
        bad: found.bad,
        wrong_type: found.wrong_type,
        wrong_length: found.wrong_length,
        full: found.full,
    };
    0
}
