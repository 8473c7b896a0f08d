//! The marks that a merge produces.
ghost use Rattle.std.specs.Prelude.{◌≡◌, ◌<◌, ◌≤◌, ◌^◌};
ghost use Rattle.rtp_stream.specs.MarkFacts.{payload_length};

use rtp_wire::{Enc, Payload};
use std::marker::Model;

/// The layout of the samples in a stream's packets. Each mark carries its stream's.
#[derive(Clone, Copy, Debug, PartialEq, Eq)]
pub struct PacketFormat {
    /// The encoding of each sample.
    pub enc: Enc,
    /// The number of channels.
    pub channels: u8,
    /// Sampling instants per packet.
    pub frames: u16,
}

impl PacketFormat {
    /// Returns the number of octets of a packet's samples.
    pub fn payload_len(self) -> usize
        ensures { result ≡ payload_length self }
    {
        usize::from(self.frames) * usize::from(self.channels) * self.enc.octets()
    }
}

/// The samples of one packet's time.
#[derive(Debug, Drop)]
pub enum Body {
    /// The payload of the first copy that came in time.
    Got(Payload),
    /// No copy came in time.
    Lost,
}

impl Body {
    ghost use Rattle.std.specs.Prelude.{option_copied};
    ghost use Rattle.rtp_stream.specs.MarkRef.{body_from, IsShort};

    /// Returns the payload's octets, or `None` if it is lost.
    #[inline]
    pub fn octets(&self) -> Option<&[u8]>
        ensures value { body_from (option_copied result) ≡ self.now }
        ensures short { IsShort (body_from (option_copied result)) }
    {
        match self {
            Body::Got(payload) => Some(payload.as_slice()),
            Body::Lost => None,
        }
    }
}

/// The content of a mark. Times are in sampling instants at 48 kHz.
#[derive(Debug, Drop)]
pub enum MarkKind {
    /// The time of one packet, from `media` on.
    Slot {
        /// The number of restarts before it.
        epoch: u64,
        /// The extended sequence number (RFC 3550, A.1).
        number: u64,
        /// The media time of its first sampling instant.
        media: i64,
        /// The samples, or that they are lost.
        body: Body,
    },
    /// The stream is known to be silent before this time.
    Quiet {
        until: i64,
    },
    /// Nothing follows.
    End,
}

/// One mark of a stream. If it has a payload, its length is exactly that of its format.
#[derive(Debug, Drop)]
pub struct Mark {
    format: PacketFormat,
    kind: MarkKind,
}

impl Model for Mark {
    ghost use Rattle.rtp_stream.specs.MarkFacts.{MarkView, IsMark};

    ghost Value = { MarkView };

    ghost view = { λ m. record { format = m.format; kind = m.kind } };

    ghost invariant = { λ m. IsMark m.format m.kind };
}

impl Mark {
    ghost use Rattle.rtp_stream.specs.MarkFacts.{IsTime, HasLength, IsMark};
    ghost use Rattle.rtp_stream.specs.declared.mark.MarkKind.TheVariants.{Slot, Quiet, End};

    /// Returns the slot of a number, whose first sampling instant is at `media`.
    pub fn slot(format: PacketFormat, epoch: u64, number: u64, media: i64, body: Body) -> Self
        requires epoch { epoch < 2 ^ 62 }
        requires number { number ≤ 2 ^ 61 }
        requires time { IsTime media }
        requires len { HasLength (payload_length format) body }
        ensures { result ≡ record { format = format; kind = Slot epoch number media body } }
    {
        let kind = MarkKind::Slot {
            epoch,
            number,
            media,
            body,
        };
        Mark { format, kind }
    }

    /// Returns a Quiet: the stream is known to be silent before this time.
    pub fn quiet(format: PacketFormat, until: i64) -> Self
        requires time { IsTime until }
        ensures { result ≡ record { format = format; kind = Quiet until } }
    {
        let kind = MarkKind::Quiet { until };
        Mark { format, kind }
    }

    /// Returns the end of a stream.
    pub fn end(format: PacketFormat) -> Self
        ensures { result ≡ record { format = format; kind = End } }
    {
        let kind = MarkKind::End;
        Mark { format, kind }
    }

    /// Returns the layout of the samples in its stream's packets.
    pub fn format(&self) -> PacketFormat
        ensures { result ≡ self.now.format }
    {
        self.format
    }

    /// Returns a reference to its content.
    pub fn kind(&self) -> &MarkKind
        ensures value { result.now ≡ self.now.kind }
        ensures sound { IsMark self.now.format self.now.kind }
    {
        &self.kind
    }
}
