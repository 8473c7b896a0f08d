//! The commands of the program and their arguments.
ghost use Rattle.std.specs.Prelude.{◌≡◌, bytes_eq, codes};

use crate::live_args::LiveArgs;

/// The command that the command line asks for.
#[derive(Drop)]
pub enum CliCommand<'a> {
    /// A command over files and standard input.
    File(FileCommand<'a>),
    /// A live run, over sockets, of the studio of the configuration at this path.
    Live(&'a str, LiveArgs<'a>),
}

/// A command over files and standard input. Configurations and captures are named by their paths.
#[derive(Drop)]
pub enum FileCommand<'a> {
    /// The marks of a trace, by the configuration of examples/first: the command of a command line without words.
    QuickStart,
    /// The marks of a trace, by a configuration.
    Marks(&'a str),
    /// The marks of a trace, and its counts on standard error.
    MarksAndCounts(&'a str),
    /// The marks of a trace, and a WAV file of one stream.
    MarksToWav(&'a str, StreamWavArgs<'a>),
    /// The report of a trace, by a configuration.
    Play(&'a str, PlayArgs<'a>),
    /// A chart of what the streams of a trace received, by a configuration.
    Chart(&'a str),
    /// The summary of a configuration, in lines for people.
    Check(&'a str),
    /// The keys of a configuration, with what each may be.
    ConfigHelp,
    /// The RTP flows of a capture.
    Streams(StreamsArgs<'a>),
    /// A capture as a trace, or a configuration that fits it.
    Import(&'a str, ImportArgs<'a>),
    /// The report of a capture, by a configuration, whose path comes first.
    Replay(&'a str, ReplayArgs<'a>),
}

/// The words of `marks --wav` and `replay --wav-stream`: a stream, and the WAV file for its samples.
#[derive(Clone, Copy)]
pub struct StreamWavArgs<'a> {
    // The option takes two words of one kind, a number and a path, so the command parses the number itself.
    /// The stream's number, as it was typed.
    pub stream: &'a str,
    /// The file's path.
    pub file: &'a str,
}

/// The arguments of `play`: the files that it reads and writes in addition to the trace and its report.
#[derive(Clone, Copy)]
pub struct PlayArgs<'a> {
    /// The path of the file with changes of gains, if there is one.
    pub gains: Option<&'a str>,
    /// The path of the mix's WAV file, if one is asked for.
    pub wav: Option<&'a str>,
}

/// The arguments of `streams`.
#[derive(Clone, Copy)]
pub struct StreamsArgs<'a> {
    /// The capture's path.
    pub file: &'a str,
    /// True if the flows are listed too that are not shown to be RTP streams.
    pub all: bool,
    /// The longest step forward of the capture's time that is no fault, in seconds. If `None`, it follows from the kind
    /// of the capture.
    pub gap: Option<u64>,
}

/// The arguments of `replay`: the capture, the file with changes of gains, and the files that are written in addition
/// to its report.
#[derive(Drop)]
pub struct ReplayArgs<'a> {
    /// The capture's path, or `-` for standard input.
    pub file: &'a str,
    /// The addresses and ports of the flows, as they were typed. If it is empty, all flows that fit a stream are taken.
    pub addresses: Vec<&'a str>,
    /// The longest step forward of the capture's time that is no fault, in seconds. If `None`, it follows from the kind
    /// of the capture.
    pub gap: Option<u64>,
    /// The path of the file with changes of gains, if there is one.
    pub gains: Option<&'a str>,
    /// The path of the mix's WAV file, if one is asked for.
    pub wav: Option<&'a str>,
    /// The stream whose own WAV file is asked for, and that file.
    pub wav_stream: Option<StreamWavArgs<'a>>,
    /// The path of the chart, if one is asked for.
    pub chart: Option<&'a str>,
}

impl ReplayArgs<'_> {
    /// Returns true if the capture comes from standard input: its path is `-`.
    pub fn is_stdin(&self) -> bool
        ensures { result ≡ bytes_eq self.now.file.now (codes "-") }
    {
        self.file == "-"
    }
}

/// The arguments of `import`.
#[derive(Drop)]
pub struct ImportArgs<'a> {
    /// The addresses and ports of the flows, as they were typed. If it is empty, all flows that fit a stream are taken.
    pub addresses: Vec<&'a str>,
    /// True if the configuration is asked for instead of the trace.
    pub config: bool,
    /// The latency of the configuration's streams in milliseconds. If `None`, it follows from the skew between paths.
    pub latency: Option<u32>,
    /// The longest step forward of the capture's time that is no fault, in seconds. If `None`, it follows from the kind
    /// of the capture.
    pub gap: Option<u64>,
}
