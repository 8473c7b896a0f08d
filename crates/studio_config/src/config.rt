//! The reader of a configuration, which makes a studio's specification of a parsed TOML document.
//!
//! `document` reads the whole, and `stream`, `output` and `schedule` a table each. `packet_format`, `network_keys`,
//! `name` and `unknown_keys` hold the keys and tests that these share. `integers`, `enums`, `ipv4`, `tables`,
//! `gain_rows` and `lookup` read one value at a key, and `matrix` makes a matrix of gains. `keys` names the keys, and
//! `fault` the errors.
mod document;
mod enums;
mod fault;
mod gain_rows;
mod integers;
mod ipv4;
mod keys;
mod lookup;
mod matrix;
mod name;
mod network_keys;
mod output;
mod packet_format;
mod schedule;
mod stream;
mod tables;
mod unknown_keys;

pub use document::channel_total;
pub use fault::{ConfigTable, SpecError, SpecErrorKind};
pub use keys::Key;
