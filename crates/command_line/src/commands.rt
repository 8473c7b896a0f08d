//! The table of the program's commands, with their arguments and their help.
use crate::clap_args::{ArgKind, ArgRelation, ArgSpec};
use clap::ArgAction;
use clap::builder::ValueParser;

// 2^40, which are 265 days.
/// The greatest number of sampling instants of a live run.
const MAX_INSTANTS: i64 = 1_099_511_627_776;

// The widest window, 16,384 packets, of the longest packets, 192 sampling instants, holds 65,536 ms.
/// The greatest latency of an imported stream, in milliseconds.
const MAX_LATENCY: i64 = 65_536;

// The greatest value of `LiveOptions::stats`.
/// The greatest number of seconds from one report of a live run's counts to the next.
const MAX_SECONDS: i64 = 4_294_967_295;

/// The greatest number of minutes of a WAV file: a day.
const MAX_MINUTES: i64 = 1440;

/// The greatest number of seconds for which a run yields: a day.
const MAX_YIELD: i64 = 86_400;

// More than 2^64 nanoseconds have, so that every step of a capture's time can be allowed.
/// The greatest number of seconds that a capture's time may step forward.
const MAX_GAP: i64 = 18_446_744_074;

/// The greatest port.
const MAX_PORT: i64 = 65_535;

/// A command: its word, its help, an example and its arguments.
#[derive(Clone, Copy)]
pub(crate) struct CommandSpec {
    pub(crate) name: &'static str,
    pub(crate) about: &'static str,
    /// The last line of the command's help.
    pub(crate) example: &'static str,
    /// The arguments, in the order of the command's help.
    pub(crate) args: &'static [ArgSpec],
}

// A table of constants, so that one loop makes the parser of all commands.
/// The commands, in the order of the program's help.
pub(crate) const COMMANDS: &[CommandSpec] = &[
    CommandSpec {
        name: "marks",
        about: "Lists the marks of the trace on standard input, stream by stream",
        example: "Example: darbexum marks studio.toml --counts < input.trace",
        args: &[
            CONFIG,
            ArgSpec {
                name: "counts",
                help: "Also print the counts of all paths and merges, on standard error",
                ..FLAG
            },
            ArgSpec {
                name: "wav",
                relation: ArgRelation::Excludes("counts"),
                ..STREAM
            },
        ],
    },
    CommandSpec {
        name: "play",
        about: "Mixes the streams of the trace on standard input, and prints the datagrams of the mix and all counts",
        example: "Example: darbexum play studio.toml --wav mix.wav < input.trace",
        args: &[CONFIG, GAINS, MIX],
    },
    CommandSpec {
        name: "chart",
        about: "Draws what each path brought to each stream of the trace on standard input, as an SVG",
        example: "Example: darbexum chart studio.toml < input.trace > chart.svg",
        args: &[CONFIG],
    },
    CommandSpec {
        name: "check",
        about: "Prints what a configuration means or, if it has a fault, where it is and what is allowed",
        example: "Example: darbexum check studio.toml",
        args: &[CONFIG],
    },
    CommandSpec {
        name: "streams",
        about: "Lists the RTP audio of a capture: counts, the formats that fit each flow, and the skew between paths",
        example: "Example: darbexum streams capture.pcapng",
        args: &[
            CAPTURE,
            ArgSpec {
                name: "all",
                help: "Also list the flows that are not shown to be RTP streams",
                ..FLAG
            },
            GAP,
        ],
    },
    CommandSpec {
        name: "import",
        about: "Prints the RTP datagrams of a capture as a trace, for marks and play",
        example: "Example: darbexum import capture.pcapng --config > studio.toml",
        args: &[
            CAPTURE,
            PATH,
            ArgSpec {
                name: "config",
                help: "Print a configuration that fits the trace, instead of the trace",
                ..FLAG
            },
            ArgSpec {
                name: "latency",
                help: "The latency in that configuration, in milliseconds from 1 to 65536 [default: twice the greatest skew between paths, at least 10]",
                kind: ArgKind::Option(ArgAction::Set, &["MS"], ValueParser::Signed(1, MAX_LATENCY)),
                relation: ArgRelation::Free,
            },
            GAP,
        ],
    },
    CommandSpec {
        name: "replay",
        about: "Prints for a capture of any length what play prints for the trace that import makes of it",
        example: "Example: darbexum replay studio.toml night.pcapng --wav night.wav",
        args: &[
            CONFIG,
            RECORD,
            PATH,
            GAP,
            GAINS,
            MIX,
            STREAM,
            ArgSpec {
                name: "chart",
                help: "Also draw what each path brought to each stream, as an SVG in this file",
                ..FILE
            },
        ],
    },
    CommandSpec {
        name: "live",
        about: "Receives the streams of a configuration from UDP sockets, and sends the mix to its two addresses",
        example: "Example: darbexum live studio.toml --page 8080 --until-eof",
        args: LIVE,
    },
];

/// The arguments of a live run.
const LIVE: &[ArgSpec] = &[
    CONFIG,
    ArgSpec {
        name: "instants",
        help: "End the run after N sample periods, 48000 a second, from 1 to 1099511627776 [default: no end]",
        kind: ArgKind::Option(ArgAction::Set, &["N"], ValueParser::Signed(1, MAX_INSTANTS)),
        relation: ArgRelation::Free,
    },
    ArgSpec {
        name: "stats",
        help: "Print the counts of each stream on standard error each SECONDS, from 1 to 4294967295 [default: never]",
        kind: ArgKind::Option(
            ArgAction::Set,
            &["SECONDS"],
            ValueParser::Signed(1, MAX_SECONDS),
        ),
        relation: ArgRelation::Free,
    },
    ArgSpec {
        name: "page",
        help: "Serve a page of the run at this port of 127.0.0.1, from 0 to 65535; at 0 the system picks a port [default: no page]",
        kind: ArgKind::Option(ArgAction::Set, &["PORT"], ValueParser::Signed(0, MAX_PORT)),
        relation: ArgRelation::Free,
    },
    ArgSpec {
        name: "control",
        help: "Let requests to the page change gains if they have the token in this file, which others must not be able to read; needs --page",
        relation: ArgRelation::Needs("page"),
        ..FILE
    },
    ArgSpec {
        name: "gains",
        help: "Begin with the gains of this file, as 'gain 96 0 1 32768': time, output, input, gain; times are media times of the run",
        ..FILE
    },
    ArgSpec {
        name: "keep-gains",
        help: "Keep the gains in this file while the run goes on, for --gains at the next start",
        ..FILE
    },
    ArgSpec {
        name: "until-eof",
        help: "End the run when standard input ends, as by Ctrl-D",
        ..FLAG
    },
    ArgSpec {
        name: "listen-fds",
        help: "Use the sockets that the program inherited, as by sd_listen_fds(3)",
        ..FLAG
    },
    ArgSpec {
        name: "share-groups",
        help: "Let other programs receive the same groups at the same ports on this machine",
        ..FLAG
    },
    ArgSpec {
        name: "verbose",
        help: "Changes nothing any more: what it added to the fault of a device is always printed",
        ..FLAG
    },
    ArgSpec {
        name: "one-thread",
        help: "Run in one thread, instead of a worker for each path and stream",
        ..FLAG
    },
    ArgSpec {
        name: "yield",
        help: "Send each copy as late as one in which two streams are missing, for this many seconds after the opening, from 1 to 86400; needs late of the output [default: not at all]",
        kind: ArgKind::Option(
            ArgAction::Set,
            &["SECONDS"],
            ValueParser::Signed(1, MAX_YIELD),
        ),
        relation: ArgRelation::Free,
    },
    ArgSpec {
        name: "record",
        help: "Write everything that arrives to this new pcapng file, for replay; needs --one-thread",
        relation: ArgRelation::Needs("one-thread"),
        ..FILE
    },
    ArgSpec {
        name: "wav",
        help: "Write the mix to this new WAV file while it is sent",
        ..FILE
    },
    ArgSpec {
        name: "wav-minutes",
        help: "Begin a new WAV file each N minutes, from 1 to 1440, with the UTC time of its first sample in its name and in a bext chunk; needs --wav",
        kind: ArgKind::Option(ArgAction::Set, &["N"], ValueParser::Signed(1, MAX_MINUTES)),
        relation: ArgRelation::Needs("wav"),
    },
    ArgSpec {
        name: "pcm",
        help: "Write the mix as raw PCM to this FIFO or new file while it is sent; - writes it to standard output, and the report to standard error",
        ..FILE
    },
    ArgSpec {
        name: "clock",
        help: "Open the run at the present International Atomic Time, by which the media clock of ST 2110 counts [default: at open_at]",
        kind: ArgKind::Option(ArgAction::Set, &["tai"], ValueParser::Names(&["tai"])),
        relation: ArgRelation::Free,
    },
    ArgSpec {
        name: "tai-offset",
        help: "The seconds by which that time is ahead of the system's, from 0 to 4294967295; system takes the offset that the system knows [default: system]",
        kind: ArgKind::Option(ArgAction::Set, &["SECONDS"], ValueParser::String),
        relation: ArgRelation::Needs("clock"),
    },
];

/// The path of a configuration.
const CONFIG: ArgSpec = ArgSpec {
    name: "CONFIG",
    help: "The configuration, in TOML",
    kind: ArgKind::Path,
    relation: ArgRelation::Free,
};

/// The path of a capture.
const CAPTURE: ArgSpec = ArgSpec {
    name: "FILE",
    help: "The capture, a pcap or pcapng file",
    kind: ArgKind::Path,
    relation: ArgRelation::Free,
};

/// The path of a capture, or `-`.
const RECORD: ArgSpec = ArgSpec {
    name: "FILE",
    help: "The capture, a pcap or pcapng file; - reads the record of a live run from standard input",
    kind: ArgKind::Path,
    relation: ArgRelation::Free,
};

/// The addresses of the flows that are taken.
const PATH: ArgSpec = ArgSpec {
    name: "path",
    help: "Take only the flows to this IPv4 address and port; may be repeated [default: all flows that fit a stream]",
    kind: ArgKind::Option(ArgAction::Append, &["ADDRESS:PORT"], ValueParser::String),
    relation: ArgRelation::Free,
};

/// The longest step forward of a capture's time.
const GAP: ArgSpec = ArgSpec {
    name: "gap",
    help: "Allow the capture's time to step forward by this many seconds, from 1 to 18446744074 [default: 60, for a live run's record 3600]",
    kind: ArgKind::Option(
        ArgAction::Set,
        &["SECONDS"],
        ValueParser::Signed(1, MAX_GAP),
    ),
    relation: ArgRelation::Free,
};

/// The path of a file with changes of gains.
const GAINS: ArgSpec = ArgSpec {
    name: "gains",
    help: "Change gains by the lines of this file, as 'gain 96 0 1 32768': time, output, input, gain",
    ..FILE
};

/// The path of the mix's WAV file.
const MIX: ArgSpec = ArgSpec {
    name: "wav",
    help: "Also write the mix to this WAV file",
    ..FILE
};

/// A stream, and the path of the WAV file for its own samples.
const STREAM: ArgSpec = ArgSpec {
    name: "wav-stream",
    help: "Also write the samples of stream STREAM, from 0 to 15, to this WAV file; lost packets are silence",
    kind: ArgKind::Option(ArgAction::Set, &["STREAM", "FILE"], ValueParser::String),
    relation: ArgRelation::Free,
};

/// An option without a value, whose name and help are still to be filled in.
const FLAG: ArgSpec = ArgSpec {
    name: "",
    help: "",
    kind: ArgKind::FLAG,
    relation: ArgRelation::Free,
};

/// An option with the path of a file, whose name and help are still to be filled in.
const FILE: ArgSpec = ArgSpec {
    name: "",
    help: "",
    kind: ArgKind::Option(ArgAction::Set, &["FILE"], ValueParser::String),
    relation: ArgRelation::Free,
};
