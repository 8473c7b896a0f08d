//! The configuration of a studio, its streams, output, gains, ports and addresses, and the reader of
//! its TOML text.
//!
//! Begin with `StudioSpec`. `StudioSpec::from_table` reads a parsed TOML table, or returns its first
//! fault as a `SpecError` with its table and key. `StudioSpec::new` joins parts that were made one by
//! one; ports and addresses are then unknown. In every `StudioSpec` the gains fit the streams and the
//! output. The caller keeps it, and the crates above borrow it.
//!
//! `shifted` moves the studio to another opening time, and `by_media_clock` has its output begin and count its blocks
//! by media time, whenever the studio opens.
#![tactic(auto)]

mod config;
mod laws;
mod networks;
mod output_clock;
mod ports;
mod studio;

pub use config::{ConfigTable, Key, SpecError, SpecErrorKind, channel_total};
pub use laws::a_media_time_has_one_number;
pub use networks::{Networks, OutputAddresses};
pub use output_clock::OutputClock;
pub use ports::Ports;
pub use studio::StudioSpec;
