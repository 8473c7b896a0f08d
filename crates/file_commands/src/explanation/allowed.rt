//! The keys of each table of a configuration, with what each may be, as a person reads it.
ghost use Rattle.std.specs.Prelude.{◌≡◌, ◌&&◌, is_some};
ghost use Rattle.std.specs.List.{list_any};
ghost use Rattle.std.specs.Str.{bytes_eq};
ghost use Rattle.studio_config.specs.Keys.{name_of};
ghost use Rattle.studio_config.specs.Rows.{is_known as is_among};
ghost use Rattle.studio_config.specs.declared.config.fault.ConfigTable.TheVariants as place;
ghost use Rattle.file_commands.specs.SimilarKey.{is_allowed, keys_at, packet_keys};

use studio_config::{ConfigTable, Key};

/// All keys of configurations.
pub(crate) const KEYS: [Key; 39] = [
    Key::OpenAt,
    Key::Stream,
    Key::Output,
    Key::Encoding,
    Key::Channels,
    Key::Frames,
    Key::Pt,
    Key::Ssrc,
    Key::Clock,
    Key::Offset,
    Key::Latency,
    Key::Window,
    Key::Paths,
    Key::PortA,
    Key::PortB,
    Key::PortC,
    Key::PortD,
    Key::AddressA,
    Key::AddressB,
    Key::AddressC,
    Key::AddressD,
    Key::SourceA,
    Key::SourceB,
    Key::SourceC,
    Key::SourceD,
    Key::Name,
    Key::Seq,
    Key::Start,
    Key::Gains,
    Key::Change,
    Key::ToA,
    Key::ToB,
    Key::FromA,
    Key::FromB,
    Key::ToAddressA,
    Key::ToAddressB,
    Key::Ttl,
    Key::Late,
    Key::At,
];

/// A sampling instant, as text.
const TIME: &str = "0 to 1152921504606846976 sampling instants";
/// The frames of a packet, as text.
const FRAMES: &str = "6, 12, 16, 48 and 192, and only 6 for more than 8 channels";
/// A 32-bit number, as text.
const NUMBER: &str = "0 to 4294967295";
/// A UDP port, as text.
const PORT: &str = "1 to 65535";
/// An IPv4 address, as text.
const ADDRESS: &str = "IPv4 addresses, such as \"192.0.2.1\"";
/// Gains, as text.
const GAINS: &str =
    "a row for each output channel, with a whole number from -1048576 to 1048576 for each channel of the streams";

/// Returns true if a table at this place has a key of this name.
pub(crate) fn is_known(place: ConfigTable, name: &str) -> bool
    ensures { result ≡ is_among (keys_at place) name.now }
{
    is_any(&KEYS, place, name)
}

/// Returns true if a table at this place may have one of these keys by this name.
fn is_any(keys: &[Key], place: ConfigTable, name: &str) -> bool
    ensures { result ≡ list_any (λ key. bytes_eq (name_of key) name.now && is_allowed place key) keys.now }
{
    keys.iter().any(|key| key.name() == name && allowed_at(place, *key).is_some())
}

/// Returns what a key of a table at this place may be, or `None` if the table has no such key. The text follows the
/// words "allowed are".
pub(crate) fn allowed_at(place: ConfigTable, key: Key) -> Option<&'static str>
    ensures { is_some result ≡ is_allowed place key }
{
    match place {
        ConfigTable::Top => allowed_at_top(key),
        ConfigTable::Stream(_) => allowed_in_stream(key),
        ConfigTable::Output => allowed_in_output(key),
        ConfigTable::Change(_) => allowed_in_change(key),
    }
}

/// Returns the words between "allowed are" and what a key may be, if its value has a fraction and is to be a whole
/// number.
pub(crate) fn whole_words(key: Key) -> &'static str {
    match key {
        Key::Frames | Key::Window => "the whole numbers ",
        Key::OpenAt | Key::At | Key::Start | Key::Offset | Key::Latency => "whole numbers from ",
        Key::Channels | Key::Pt | Key::Ssrc | Key::Seq | Key::Paths => "whole numbers from ",
        Key::PortA | Key::PortB | Key::PortC | Key::PortD => "whole numbers from ",
        Key::ToA | Key::ToB | Key::Ttl | Key::Late => "whole numbers from ",
        _ => "",
    }
}

/// Returns what a key of the document may be.
fn allowed_at_top(key: Key) -> Option<&'static str>
    ensures { is_some result ≡ is_allowed place.Top key }
{
    match key {
        Key::OpenAt => Some(TIME),
        Key::Stream => Some("1 to 16 tables [[stream]]"),
        Key::Output => Some("one table [output]"),
        _ => None,
    }
}

/// Returns what a key of a stream's table may be.
fn allowed_in_stream(key: Key) -> Option<&'static str>
    ensures { is_some result ≡ is_allowed (place.Stream 0) key }
{
    match key {
        Key::Channels => Some("1 to 64"),
        Key::Clock => Some("\"media\", \"arrival\" and \"follow\""),
        Key::Latency => Some(
            "1 to (window - 2) * frames sample periods, so that the window holds the latency and two packets",
        ),
        Key::Window => Some("8, 16, 32 and so on, doubled up to 16384 packets"),
        Key::Paths => Some("1 to 4"),
        Key::PortA | Key::PortB | Key::PortC | Key::PortD => Some(PORT),
        Key::AddressA | Key::AddressB | Key::AddressC | Key::AddressD => Some(ADDRESS),
        Key::SourceA | Key::SourceB | Key::SourceC | Key::SourceD => Some(ADDRESS),
        Key::Name => Some("texts of at most 64 octets"),
        _ => allowed_in_packets(key),
    }
}

/// Returns what a key of the output's table may be.
fn allowed_in_output(key: Key) -> Option<&'static str>
    ensures { is_some result ≡ is_allowed place.Output key }
{
    match key {
        Key::Channels => Some("1 to 8"),
        Key::Seq => Some("0 to 65535"),
        Key::Start => Some(TIME),
        Key::Gains => Some(GAINS),
        Key::Change => Some(
            "at most 64 tables [[output.change]], each at a later time than the one before",
        ),
        Key::ToA | Key::ToB => Some(PORT),
        Key::FromA | Key::FromB | Key::ToAddressA | Key::ToAddressB => Some(ADDRESS),
        Key::Ttl => Some("1 to 255"),
        Key::Clock => Some("\"run\", and \"media\" if each stream has clock = \"media\""),
        Key::Late => Some("0 to 4800 sample periods"),
        _ => allowed_in_packets(key),
    }
}

/// Returns what a key that streams and the output share may be.
fn allowed_in_packets(key: Key) -> Option<&'static str>
    ensures { is_some result ≡ is_among packet_keys (name_of key) }
{
    match key {
        Key::Encoding => Some("\"L16\" and \"L24\""),
        Key::Frames => Some(FRAMES),
        Key::Pt => Some("96 to 127"),
        Key::Ssrc | Key::Offset => Some(NUMBER),
        _ => None,
    }
}

/// Returns what a key of a change of gains may be.
fn allowed_in_change(key: Key) -> Option<&'static str>
    ensures { is_some result ≡ is_allowed (place.Change 0) key }
{
    match key {
        Key::At => Some(TIME),
        Key::Gains => Some(GAINS),
        _ => None,
    }
}
