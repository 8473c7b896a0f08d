//! The commands over files and standard input: marks, play, chart, check, streams, import and replay.
//!
//! `run_marks`, `run_play`, `run_chart`, `run_check`, `run_streams`, `run_import` and `run_replay`
//! each run one command, with the arguments that `command_line` found. They write the text of the
//! command to `output`, or return a `CommandFault`, which has its line and exit status.
//! `run_quick_start` is the run without words, and `run_config_help` lists the keys of a configuration.
//!
//! The caller passes a `Host`, which opens and creates files by path: no command opens a file itself.
//! No command writes a file that it also reads, by any of the file's paths.
//! `read_config` and `parse_studio` read a configuration.
#![tactic(auto)]

mod capture_flows;
mod chart_observer;
mod config;
mod config_help;
mod config_summary;
mod explanation;
mod fault;
mod host;
mod import_command;
mod imported_config;
mod levels;
mod replay;
mod replay_command;
mod replay_input;
mod replay_outputs;
mod replay_source;
mod shared_place;
mod stream_output;
mod streams_command;
mod trace_commands;

pub use config::{changed_studio, parse_studio, read_config, read_gains, table_in};
pub use config_help::run_config_help;
pub use fault::{
    CaptureInputFault, CommandFault, ConfigFault, FileClash, GainsInputFault, InputKind,
    output_result,
};
pub use host::{Host, is_one_file};
pub use import_command::run_import;
pub use replay_command::run_replay;
pub use streams_command::run_streams;
pub use trace_commands::{
    run_chart, run_check, run_marks, run_marks_to_wav, run_marks_with_counts, run_play,
    run_quick_start,
};
