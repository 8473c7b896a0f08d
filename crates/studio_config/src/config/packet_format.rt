//! The packet format: the first keys of a stream's table and of the output's.
ghost use Rattle.std.specs.Prelude.{◌≡◌, None, Some, OnOk, IfOk, IfErr};
ghost use Rattle.toml.specs.View.{table_view};
ghost use Rattle.studio_config.specs.Values.{number_or, encoding_at};
ghost use Rattle.studio_config.specs.Rows.{rows_fault};
ghost use Rattle.studio_config.specs.StreamTable.{packet_rows};
ghost use Rattle.studio_config.specs.declared.config.keys.Key.TheVariants as key;

use crate::config::enums::encoding;
use crate::config::fault::{ConfigTable, SpecError};
use crate::config::integers::whole;
use crate::config::keys::Key;
use rtp_wire::Enc;
use toml::Table;

/// A packet format: the encoding, the channels, the sampling instants per packet and the RTP payload type.
#[derive(Clone, Copy)]
pub(crate) struct Packets {
    pub enc: Enc,
    pub channels: u8,
    pub frames: u16,
    pub pt: u8,
}

/// Reads the packet format.
pub(crate) fn read_packets(table: &Table, place: ConfigTable) -> Result<Packets, SpecError>
    ensures ok { OnOk result (rows_fault place (table_view table.now) packet_rows ≡ None) }
    ensures enc { IfOk result (λ p. encoding_at (table_view table.now) key.Encoding ≡ p.enc) }
    ensures channels { IfOk result (λ p. number_or (table_view table.now) key.Channels 0 ≡ p.channels) }
    ensures frames { IfOk result (λ p. number_or (table_view table.now) key.Frames 0 ≡ p.frames) }
    ensures pt { IfOk result (λ p. number_or (table_view table.now) key.Pt 0 ≡ p.pt) }
    ensures fault { IfErr result (λ e. rows_fault place (table_view table.now) packet_rows ≡ Some e) }
{
    let enc = encoding(table, place, Key::Encoding)?;
    // Only the field's width is tested here. `StreamSpec::of` and `OutSpec::of` test the rules of a stream and of an
    // output, which differ.
    let channels = whole(table, place, Key::Channels, 0, 255)? as u8;
    let frames = whole(table, place, Key::Frames, 0, 65535)? as u16;
    let pt = whole(table, place, Key::Pt, 0, 255)? as u8;
    Ok(Packets {
        enc,
        channels,
        frames,
        pt,
    })
}
