//! A cell for a mark in a ring, and the pushing end of a ring whose cells have one size.
ghost use Rattle.std.specs.Prelude.{◌≡◌, ◌+◌, ◌<◌, ◌≤◌, ◌++◌, ◌∷◌, [], ◌↔◌, IfSome, IsTrue};
ghost use Rattle.rtrb.specs.Ring.{Finishes, ProducerLooked, SameProducer, known_free, sent};
ghost use Rattle.rtp_stream.specs.MarkFacts.{payload_length};
ghost use Rattle.rtp_stream.specs.MarkRef.{kind_of};
ghost use Rattle.studio_ends.specs.MarkCells.{octets_in, said_of};

use crate::rings::payload_cell::PayloadCell;
use rtp_stream::{MarkKindRef, MarkRef, PacketFormat};
use rtrb::{Finished, Producer};
use std::marker::Model;

/// The contents of a mark without its payload.
#[derive(Clone, Copy)]
enum MarkHeader {
    /// The slot of a packet that came in time.
    Got { epoch: u64, number: u64, media: i64 },
    /// The slot of a packet that did not.
    Lost { epoch: u64, number: u64, media: i64 },
    Quiet { until: i64 },
    End,
}

/// A mark whose payload lies in a cell of `N` octets. Contracts see it as that mark.
#[derive(Clone, Copy)]
pub(crate) struct MarkCell<const N: usize> {
    format: PacketFormat,
    said: MarkHeader,
    payload: PayloadCell<N>,
}

impl<const N: usize> Model for MarkCell<N> {
    ghost use Rattle.rtp_stream.specs.MarkFacts.{MarkView};
    ghost use Rattle.studio_ends.specs.MarkCells.{IsMarkCell, kind_in, octets_in, said_back, said_of};

    ghost Value = { MarkView };

    ghost view = { λ r. record { format = r.format; kind = kind_in r.said r.payload } };

    ghost invariant = { λ r. IsMarkCell r.format r.said r.payload };

    ghost inverse = { λ m. record { format = m.format; said = said_of m.kind; payload = octets_in m.kind } };

    ghost inverse_ok = { λ r h i.
        record { format = r.format; said = said_back r.said r.payload i; payload = h.blank i } };
}

impl<const N: usize> MarkCell<N> {
    ghost use Rattle.studio_ends.specs.MarkCells.{IsWithin};

    /// Returns the mark of a stream's end.
    pub(crate) fn new(format: PacketFormat) -> MarkCell<N> {
        MarkCell {
            format,
            said: MarkHeader::End,
            payload: PayloadCell::new(),
        }
    }

    /// Replaces the mark by a copy of a borrowed one.
    #[inline(always)]
    pub(crate) fn fill(&mut self, mark: &MarkRef<'_>)
        requires { IsWithin N mark.now.kind }
        ensures { self.new ≡ mark.now }
    {
        self.format = mark.format();
        let (said, octets) = split_mark(mark.kind());
        self.said = said;
        self.payload.fill(octets);
    }

    /// Returns the mark with its payload borrowed.
    #[inline]
    pub(crate) fn as_ref(&self) -> MarkRef<'_>
        ensures { result ≡ self.now }
    {
        let octets = self.payload.octets();
        match self.said {
            MarkHeader::Got {
                epoch,
                number,
                media,
            } => MarkRef::slot(self.format, epoch, number, media, Some(octets)),
            MarkHeader::Lost {
                epoch,
                number,
                media,
            } => MarkRef::slot(self.format, epoch, number, media, None),
            MarkHeader::Quiet { until } => MarkRef::quiet(self.format, until),
            MarkHeader::End => MarkRef::end(self.format),
        }
    }
}

/// Returns the contents of a mark and its payload, which is empty for a mark without one.
#[inline(always)]
fn split_mark<'a>(kind: MarkKindRef<'a>) -> (MarkHeader, &'a [u8])
    ensures said { result.0 ≡ said_of (kind_of kind.entry) }
    ensures octets { result.1.now ≡ octets_in (kind_of kind.entry) }
{
    match kind {
        MarkKindRef::Slot {
            epoch,
            number,
            media,
            payload: Some(octets),
        } => (
            MarkHeader::Got {
                epoch,
                number,
                media,
            },
            octets,
        ),
        MarkKindRef::Slot {
            epoch,
            number,
            media,
            payload: None,
        } => (
            MarkHeader::Lost {
                epoch,
                number,
                media,
            },
            &[],
        ),
        MarkKindRef::Quiet { until } => (MarkHeader::Quiet { until }, &[]),
        MarkKindRef::End => (MarkHeader::End, &[]),
    }
}

/// The pushing end of a ring of marks, and a cell that each mark is written to before it is pushed.
/// Contracts see it as that end.
#[derive(Drop)]
pub(crate) struct SizedMarkProducer<const N: usize> {
    ring: Producer<MarkCell<N>>,
    // One cell for all marks: its octets are zeroed only if the length changes, and copied to the ring once.
    cell: MarkCell<N>,
}

impl<const N: usize> Model for SizedMarkProducer<N> {
    ghost use Rattle.std.specs.declared.alloc.Global.{Global};
    ghost use Rattle.rtrb.specs.declared.AnyItems.{AnyItems};
    ghost use Rattle.rtrb.specs.declared.producer.Producer.{Producer};
    ghost use Rattle.rtp_stream.specs.MarkFacts.{MarkView};

    ghost Value = { Producer MarkView Global AnyItems };

    ghost view = { λ s. s.ring };
}

impl<const N: usize> SizedMarkProducer<N> {
    /// Returns a pushing end over this ring, for marks of this format.
    pub(crate) fn new(ring: Producer<MarkCell<N>>, format: PacketFormat) -> SizedMarkProducer<N>
        ensures { result ≡ ring.entry }
    {
        SizedMarkProducer {
            ring,
            cell: MarkCell::new(format),
        }
    }

    /// Returns true if no place is known to be free.
    pub(crate) fn is_full(&mut self) -> bool
        ensures looked { ProducerLooked self.old self.new }
        ensures value { IsTrue result ↔ (known_free self.new ≡ 0) }
    {
        self.ring.is_full()
    }

    /// Pushes a mark to a place that is known to be free.
    pub(crate) fn push(&mut self, mark: &MarkRef<'_>)
        requires free { 0 < known_free self.old }
        requires space { payload_length mark.now.format ≤ N }
        ensures ring { SameProducer self.old self.new }
        ensures sent { sent self.new ≡ sent self.old ++ mark.now ∷ [] }
    {
        // Called for its contract: the payload has the format's length, so it fits the cell.
        let _kind = mark.kind();
        self.cell.fill(mark);
        self.ring.push_reserved(self.cell);
    }

    /// Consumes the end and returns its token; `None` if the consumer was dropped.
    pub(crate) fn finish(self) -> Option<Finished<MarkCell<N>>>
        ensures { IfSome result (λ done. Finishes self.entry done) }
    {
        let SizedMarkProducer { ring, cell: _ } = self;
        ring.finish()
    }
}
