//! Marks whose payload is borrowed.
ghost use Rattle.std.specs.Prelude.{◌≡◌, ◌<◌, ◌≤◌, ◌^◌, option_copied};
ghost use Rattle.rtp_stream.specs.MarkFacts.{payload_length};
ghost use Rattle.rtp_stream.specs.MarkRef.{body_from, IsShort};

use crate::mark::{Body, Mark, MarkKind, PacketFormat};
use rtp_wire::Payload;
use std::marker::Model;

/// The content of a mark, with a borrowed payload. Times are in sampling instants at 48 kHz.
#[derive(Clone, Copy, Debug)]
pub enum MarkKindRef<'a> {
    /// The time of one packet, from `media` on.
    Slot {
        /// The number of restarts before it.
        epoch: u64,
        /// The extended sequence number (RFC 3550, A.1).
        number: u64,
        /// The media time of its first sampling instant.
        media: i64,
        /// The samples of the first copy that came in time, if one did.
        payload: Option<&'a [u8]>,
    },
    /// The stream is known to be silent before this time.
    Quiet {
        until: i64,
    },
    /// Nothing follows.
    End,
}

/// A mark whose payload is borrowed from a merge's window or from another mark. Contracts see it as a mark with that
/// payload.
#[derive(Debug, Drop)]
pub struct MarkRef<'a> {
    format: PacketFormat,
    kind: MarkKindRef<'a>,
}

impl<'a> Model for MarkRef<'a> {
    ghost use Rattle.rtp_stream.specs.MarkFacts.{MarkView};
    ghost use Rattle.rtp_stream.specs.MarkRef.{kind_of, IsMarkRef};

    ghost Value = { MarkView };

    ghost view = { λ m. record { format = m.format; kind = kind_of m.kind } };

    ghost invariant = { λ m. IsMarkRef m.format (kind_of m.kind) };
}

impl<'a> MarkRef<'a> {
    ghost use Rattle.rtp_stream.specs.MarkFacts.{IsTime, HasLength, IsMark};
    ghost use Rattle.rtp_stream.specs.MarkRef.{kind_of, HasShortBody};
    ghost use Rattle.rtp_stream.specs.declared.mark.MarkKind.TheVariants.{Slot, Quiet, End};

    /// Returns the slot of a number, whose first sampling instant is at `media`.
    #[inline]
    pub fn slot(
        format: PacketFormat,
        epoch: u64,
        number: u64,
        media: i64,
        payload: Option<&'a [u8]>,
    ) -> MarkRef<'a>
        requires epoch { epoch < 2 ^ 62 }
        requires number { number ≤ 2 ^ 61 }
        requires time { IsTime media }
        requires len { HasLength (payload_length format) (body_from (option_copied payload)) }
        requires short { IsShort (body_from (option_copied payload)) }
        ensures { result
            ≡ record { format = format; kind = Slot epoch number media (body_from (option_copied payload.entry)) } }
    {
        let kind = MarkKindRef::Slot {
            epoch,
            number,
            media,
            payload,
        };
        MarkRef { format, kind }
    }

    /// Returns a Quiet: the stream is known to be silent before this time.
    #[inline]
    pub fn quiet(format: PacketFormat, until: i64) -> MarkRef<'a>
        requires time { IsTime until }
        ensures { result ≡ record { format = format; kind = Quiet until } }
    {
        let kind = MarkKindRef::Quiet { until };
        MarkRef { format, kind }
    }

    /// Returns the end of a stream.
    #[inline]
    pub fn end(format: PacketFormat) -> MarkRef<'a>
        ensures { result ≡ record { format = format; kind = End } }
    {
        let kind = MarkKindRef::End;
        MarkRef { format, kind }
    }

    /// Returns the layout of the samples in its stream's packets.
    #[inline]
    pub fn format(&self) -> PacketFormat
        ensures { result ≡ self.now.format }
    {
        self.format
    }

    /// Returns its content.
    #[inline]
    pub fn kind(&self) -> MarkKindRef<'a>
        ensures value { kind_of result ≡ self.now.kind }
        ensures sound { IsMark self.now.format self.now.kind }
        ensures short { HasShortBody (kind_of result) }
    {
        self.kind
    }

    /// Returns this mark with a copy of the payload. Takes no memory.
    pub fn to_mark(&self) -> Mark
        ensures { result ≡ self.now }
    {
        match self.kind {
            MarkKindRef::Slot {
                epoch,
                number,
                media,
                payload,
            } => Mark::slot(self.format, epoch, number, media, body_copied(payload)),
            MarkKindRef::Quiet { until } => Mark::quiet(self.format, until),
            MarkKindRef::End => Mark::end(self.format),
        }
    }
}

impl Mark {
    /// Returns this mark with its payload borrowed.
    #[inline]
    pub fn as_ref(&self) -> MarkRef<'_>
        ensures { result ≡ self.now }
    {
        let format = self.format();
        match self.kind() {
            MarkKind::Slot {
                epoch,
                number,
                media,
                body,
            } => MarkRef::slot(format, *epoch, *number, *media, body.octets()),
            MarkKind::Quiet { until } => MarkRef::quiet(format, *until),
            MarkKind::End => MarkRef::end(format),
        }
    }
}

/// Returns a body with a copy of the octets.
fn body_copied(octets: Option<&[u8]>) -> Body
    requires { IsShort (body_from (option_copied octets)) }
    ensures { result ≡ body_from (option_copied octets.entry) }
{
    match octets {
        Some(octets) => {
            let mut payload = Payload::new();
            // This doesn't fail: there are at most 1,440 octets, the payload's capacity.
            let _ = payload.try_extend_from_slice(octets);
            Body::Got(payload)
        }
        None => Body::Lost,
    }
}
