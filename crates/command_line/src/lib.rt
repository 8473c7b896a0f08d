//! The command line of `darbexum`: from its words to the command that they ask for.
//!
//! `parse_args` returns the `CliCommand` of a program's words, or clap's error with its text. Help and the version are
//! errors too. `commands` has all commands with their arguments and help as a table. `clap_args` makes clap's parser of
//! it. `VERSION` is the version of the program.
#![tactic(auto)]

mod args;
mod clap_args;
mod commands;
mod live_args;
mod parse;
mod version;

pub use args::{
    CliCommand, FileCommand, ImportArgs, PlayArgs, ReplayArgs, StreamWavArgs, StreamsArgs,
};
pub use live_args::LiveArgs;
pub use parse::parse_args;
pub use version::VERSION;
