//! The keys of a configuration's tables.
ghost use Rattle.std.specs.Prelude.{◌≡◌};

use std::fmt;

/// A key of one of the tables.
#[derive(Clone, Copy, Debug, PartialEq, Eq)]
pub enum Key {
    OpenAt,
    Stream,
    Output,
    Encoding,
    Channels,
    Frames,
    Pt,
    Ssrc,
    Clock,
    Offset,
    Latency,
    Window,
    Paths,
    PortA,
    PortB,
    PortC,
    PortD,
    AddressA,
    AddressB,
    AddressC,
    AddressD,
    SourceA,
    SourceB,
    SourceC,
    SourceD,
    Name,
    Seq,
    Start,
    Gains,
    Change,
    ToA,
    ToB,
    FromA,
    FromB,
    ToAddressA,
    ToAddressB,
    Ttl,
    Late,
    At,
}

impl Key {
    ghost use Rattle.studio_config.specs.Keys.{name_of};

    /// Returns the key as a configuration spells it.
    pub fn name(self) -> &'static str
        ensures { result.now ≡ name_of self }
    {
        match self {
            Key::OpenAt => "open_at",
            Key::Stream => "stream",
            Key::Output => "output",
            Key::Encoding => "encoding",
            Key::Channels => "channels",
            Key::Frames => "frames",
            Key::Pt => "pt",
            Key::Ssrc => "ssrc",
            Key::Clock => "clock",
            Key::Offset => "offset",
            Key::Latency => "latency",
            Key::Window => "window",
            Key::Paths => "paths",
            Key::PortA => "port_a",
            Key::PortB => "port_b",
            Key::PortC => "port_c",
            Key::PortD => "port_d",
            Key::AddressA => "address_a",
            Key::AddressB => "address_b",
            Key::AddressC => "address_c",
            Key::AddressD => "address_d",
            Key::SourceA => "source_a",
            Key::SourceB => "source_b",
            Key::SourceC => "source_c",
            Key::SourceD => "source_d",
            Key::Name => "name",
            Key::Seq => "seq",
            Key::Start => "start",
            Key::Gains => "gains",
            Key::Change => "change",
            Key::ToA => "to_a",
            Key::ToB => "to_b",
            Key::FromA => "from_a",
            Key::FromB => "from_b",
            Key::ToAddressA => "to_address_a",
            Key::ToAddressB => "to_address_b",
            Key::Ttl => "ttl",
            Key::Late => "late",
            Key::At => "at",
        }
    }
}

impl fmt::Display for Key {
    fn fmt<W: fmt::Write>(&self, f: &mut fmt::Formatter<W>) -> fmt::Result {
        f.write_str(self.name())
    }
}
