//! The command of a command line's words.
use crate::args::{
    CliCommand, FileCommand, ImportArgs, PlayArgs, ReplayArgs, StreamWavArgs, StreamsArgs,
};
use crate::clap_args::program_parser;
use crate::live_args::LiveArgs;
use clap::error::ErrorKind;
use clap::{ArgMatches, Error};
use std::alloc::{AllocError, Global};

/// Returns the command that the words ask for. The program's name is not among the words. Help and the version are
/// errors too, with their texts, and so is an allocation failure.
pub fn parse_args<'a>(alloc: Global, words: &'a [String]) -> Result<CliCommand<'a>, Error> {
    if asks_for_keys(words) {
        return Ok(CliCommand::File(FileCommand::ConfigHelp));
    }
    let matches = program_parser(alloc)?.try_get_matches_from(words)?;
    let command = parse_command(alloc, &matches)?;
    if draws_stdin(&command) {
        return Err(chart_of_stdin(alloc)?);
    }
    Ok(command)
}

/// Returns true if the words are `help config`.
// Clap's own command `help` takes the name of a command alone.
fn asks_for_keys(words: &[String]) -> bool {
    match words {
        [help, config] => help.as_str() == "help" && config.as_str() == "config",
        _ => false,
    }
}

/// Returns true if a chart of the capture on standard input is asked for.
fn draws_stdin(command: &CliCommand<'_>) -> bool {
    match command {
        CliCommand::File(FileCommand::Replay(_, args)) => args.is_stdin() && args.chart.is_some(),
        _ => false,
    }
}

/// Returns the usage fault of a chart of the capture on standard input.
// A chart takes two passes over the capture, and clap's conflicts don't depend on values.
fn chart_of_stdin(alloc: Global) -> Result<Error, AllocError> {
    let message =
        "the argument '--chart <FILE>' cannot be used with '-': a chart reads its capture twice";
    program_parser(alloc)?.error(ErrorKind::ArgumentConflict, message)
}

/// Returns the command of words that match the parser.
fn parse_command<'a>(alloc: Global, matches: &ArgMatches<'a>) -> Result<CliCommand<'a>, Error> {
    let Some((name, inner)) = matches.subcommand() else {
        return Ok(CliCommand::File(FileCommand::QuickStart));
    };
    // Most commands differ in the paths that they require: `import` and `streams` take no configuration, and only
    // `replay` takes both.
    let command = match (inner.get_str("CONFIG"), inner.get_str("FILE")) {
        (Some(config), Some(capture)) => {
            FileCommand::Replay(config, replay_args(alloc, capture, inner)?)
        }
        (Some(config), None) if name == "live" => {
            return Ok(CliCommand::Live(config, LiveArgs::of(inner)));
        }
        (Some(config), None) => parse_config_command(name, config, inner),
        (None, Some(capture)) if name == "import" => {
            FileCommand::Import(capture, import_args(alloc, inner)?)
        }
        (None, Some(capture)) => FileCommand::Streams(streams_args(capture, inner)),
        // Not reached: each command requires one of these paths.
        (None, None) => FileCommand::QuickStart,
    };
    Ok(CliCommand::File(command))
}

/// Returns the command of a word that takes a configuration and no capture, other than `live`.
fn parse_config_command<'a>(
    name: &str,
    path: &'a str,
    matches: &ArgMatches<'a>,
) -> FileCommand<'a> {
    match name {
        "play" => FileCommand::Play(path, play_args(matches)),
        "chart" => FileCommand::Chart(path),
        "check" => FileCommand::Check(path),
        _ => parse_marks(path, matches),
    }
}

/// Returns the command that lists the marks of a trace.
fn parse_marks<'a>(path: &'a str, matches: &ArgMatches<'a>) -> FileCommand<'a> {
    if matches.get_flag("counts") {
        return FileCommand::MarksAndCounts(path);
    }
    match stream_wav_in(matches, "wav") {
        Some(wav) => FileCommand::MarksToWav(path, wav),
        None => FileCommand::Marks(path),
    }
}

/// Returns the two words of the option with this name, a stream and its WAV file, if the option was given.
fn stream_wav_in<'a>(matches: &ArgMatches<'a>, option: &str) -> Option<StreamWavArgs<'a>> {
    match matches.get_strs(option) {
        Some([stream, file]) => Some(StreamWavArgs { stream, file }),
        _ => None,
    }
}

/// Returns the arguments of `play`.
fn play_args<'a>(matches: &ArgMatches<'a>) -> PlayArgs<'a> {
    PlayArgs {
        gains: matches.get_str("gains"),
        wav: matches.get_str("wav"),
    }
}

/// Returns the arguments of `streams`, with the path of its capture.
fn streams_args<'a>(file: &'a str, matches: &ArgMatches<'a>) -> StreamsArgs<'a> {
    StreamsArgs {
        file,
        all: matches.get_flag("all"),
        gap: matches.get_one::<u64>("gap"),
    }
}

/// Returns the arguments of `replay`, with the path of its capture.
fn replay_args<'a>(
    alloc: Global,
    file: &'a str,
    matches: &ArgMatches<'a>,
) -> Result<ReplayArgs<'a>, AllocError> {
    Ok(ReplayArgs {
        file,
        addresses: addresses_in(alloc, matches)?,
        gap: matches.get_one::<u64>("gap"),
        gains: matches.get_str("gains"),
        wav: matches.get_str("wav"),
        wav_stream: stream_wav_in(matches, "wav-stream"),
        chart: matches.get_str("chart"),
    })
}

/// Returns the words of `--path`.
fn addresses_in<'a>(alloc: Global, matches: &ArgMatches<'a>) -> Result<Vec<&'a str>, AllocError> {
    let mut addresses = Vec::new(alloc);
    if let Some(words) = matches.get_strs("path") {
        addresses.extend_from_slice(words)?;
    }
    Ok(addresses)
}

/// Returns the arguments of `import`.
fn import_args<'a>(alloc: Global, matches: &ArgMatches<'a>) -> Result<ImportArgs<'a>, AllocError> {
    Ok(ImportArgs {
        addresses: addresses_in(alloc, matches)?,
        config: matches.get_flag("config"),
        latency: matches.get_one::<u32>("latency"),
        gap: matches.get_one::<u64>("gap"),
    })
}
