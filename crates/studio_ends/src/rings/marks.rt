//! A stream's ring of marks, with cells of the least of three sizes that its payloads fit.
ghost use Rattle.std.specs.Prelude.{
  ◌≡◌,
  ◌<◌,
  ◌≤◌,
  ◌++◌,
  ◌∷◌,
  [],
  ◌↔◌,
  IfOk,
  IfSome,
  IsSomeAnd,
  IsTrue,
  MatchOption,
  None,
  Some,
  length,
};
ghost use Rattle.rtrb.specs.Ring.{
  Finishes,
  IsFinishedOf,
  IsPair,
  ProducerLooked,
  SameConsumer,
  SameProducer,
  all_sent,
  known_free,
  received,
  sent,
};
ghost use Rattle.rtp_stream.specs.MarkFacts.{payload_length};
ghost use Rattle.studio_ends.specs.MarksIn.{TakesWanted};
ghost use Rattle.studio_ends.specs.CellSizes.{HasCellsFor};
ghost use Rattle.studio_ends.specs.DrainedRing.{IsDrained};

use crate::mix_end::marks_in::take_stream;
use crate::rings::TokenConsumer;
use crate::rings::mark_cell::{MarkCell, SizedMarkProducer};
use crate::rings::payload_cell::{LONG, MIDDLE, SHORT};
use rtp_stream::{MarkRef, PacketFormat};
use rtrb::{Finished, RingBuffer};
use std::alloc::{AllocError, Global};
use std::marker::Model;
use studio_mix::Mixer;

/// The pushing end of a ring of marks, by the size of its cells.
#[derive(Drop)]
enum ProducerBySize {
    Short(SizedMarkProducer<SHORT>),
    Middle(SizedMarkProducer<MIDDLE>),
    Long(SizedMarkProducer<LONG>),
}

/// The popping end of a ring of marks, by the size of its cells.
#[derive(Drop)]
enum ConsumerBySize {
    Short(TokenConsumer<MarkCell<SHORT>>),
    Middle(TokenConsumer<MarkCell<MIDDLE>>),
    Long(TokenConsumer<MarkCell<LONG>>),
}

/// The token of a pushing end, by the size of its ring's cells.
#[derive(Drop)]
enum TokenBySize {
    Short(Finished<MarkCell<SHORT>>),
    Middle(Finished<MarkCell<MIDDLE>>),
    Long(Finished<MarkCell<LONG>>),
}

/// The pushing end. Contracts see it as that of a ring of marks, whose ghost name holds the size of its cells.
#[derive(Drop)]
pub(crate) struct MarkProducer {
    end: ProducerBySize,
}

/// The popping end, with the token of the pushing end once it was passed in.
#[derive(Drop)]
pub(crate) struct MarkConsumer {
    end: ConsumerBySize,
}

/// The token of the pushing end.
#[derive(Drop)]
pub(crate) struct MarkToken {
    token: TokenBySize,
}

impl Model for MarkProducer {
    ghost use Rattle.std.specs.declared.alloc.Global.{Global};
    ghost use Rattle.rtrb.specs.declared.AnyItems.{AnyItems};
    ghost use Rattle.rtrb.specs.declared.producer.Producer.{Producer};
    ghost use Rattle.rtp_stream.specs.MarkFacts.{MarkView};
    ghost use Rattle.studio_ends.specs.MarkRings.{sender_in};

    ghost Value = { Producer MarkView Global AnyItems };

    ghost view = { λ s. sender_in s.end };
}

impl Model for MarkConsumer {
    ghost use Rattle.rtp_stream.specs.contracts.mark.Mark as mark_row;
    ghost use Rattle.studio_ends.specs.contracts.rings.TokenConsumer as side_row;
    ghost use Rattle.rtp_stream.specs.MarkFacts.{MarkView};
    ghost use Rattle.studio_ends.specs.declared.rings.TokenConsumer.{TokenConsumer};
    ghost use Rattle.studio_ends.specs.MarkRings.{side_in};

    ghost Value = { TokenConsumer MarkView };

    ghost coded = { (side_row.the_row mark_row.the_row).coded };

    ghost view = { λ s. side_in s.end };
}

impl Model for MarkToken {
    ghost use Rattle.std.specs.declared.alloc.Global.{Global};
    ghost use Rattle.rtrb.specs.declared.AnyItems.{AnyItems};
    ghost use Rattle.rtrb.specs.declared.finished.Finished.{Finished};
    ghost use Rattle.rtp_stream.specs.MarkFacts.{MarkView};
    ghost use Rattle.studio_ends.specs.MarkRings.{token_in};

    ghost Value = { Finished MarkView Global AnyItems };

    ghost view = { λ s. token_in s.token };
}

impl MarkProducer {
    /// Returns true if no place is known to be free.
    pub(crate) fn is_full(&mut self) -> bool
        ensures looked { ProducerLooked self.old self.new }
        ensures value { IsTrue result ↔ (known_free self.new ≡ 0) }
    {
        match &mut self.end {
            ProducerBySize::Short(end) => end.is_full(),
            ProducerBySize::Middle(end) => end.is_full(),
            ProducerBySize::Long(end) => end.is_full(),
        }
    }

    /// Pushes a mark to a place that is known to be free.
    pub(crate) fn push(&mut self, mark: &MarkRef<'_>)
        requires free { 0 < known_free self.old }
        requires cells { HasCellsFor (payload_length mark.now.format) self.old }
        ensures ring { SameProducer self.old self.new }
        ensures sent { sent self.new ≡ sent self.old ++ mark.now ∷ [] }
    {
        match &mut self.end {
            ProducerBySize::Short(end) => end.push(mark),
            ProducerBySize::Middle(end) => end.push(mark),
            ProducerBySize::Long(end) => end.push(mark),
        }
    }

    /// Consumes the end and returns its token; `None` if the consumer was dropped.
    pub(crate) fn finish(self) -> Option<MarkToken>
        ensures { IfSome result (λ done. Finishes self done) }
    {
        let MarkProducer { end } = self;
        let token = match end {
            ProducerBySize::Short(end) => TokenBySize::Short(end.finish()?),
            ProducerBySize::Middle(end) => TokenBySize::Middle(end.finish()?),
            ProducerBySize::Long(end) => TokenBySize::Long(end.finish()?),
        };
        Some(MarkToken { token })
    }
}

impl MarkConsumer {
    /// Takes marks of a stream while the mixer wants them, at most 64. Returns the number taken and the number of them
    /// that may not follow the marks before.
    pub(crate) fn take(&mut self, mixer: &mut Mixer, stream: usize) -> (u32, u32)
        requires stream { stream < length mixer.old.lanes }
        ensures { TakesWanted self.old self.new mixer.old mixer.new stream result.0 result.1 }
    {
        match &mut self.end {
            ConsumerBySize::Short(side) => take_stream(side, mixer, stream),
            ConsumerBySize::Middle(side) => take_stream(side, mixer, stream),
            ConsumerBySize::Long(side) => take_stream(side, mixer, stream),
        }
    }

    /// Takes the token of the pushing end.
    pub(crate) fn hand_in(&mut self, done: MarkToken)
        requires { IsFinishedOf done self.old.ring }
        ensures { (self.new.ring ≡ self.old.ring) × (self.new.done ≡ Some done) }
    {
        // A token belongs to one ring, and the ring's ghost name fixes the size: the other sizes cannot come.
        let MarkToken { token } = done;
        match &mut self.end {
            ConsumerBySize::Short(side) => match token {
                TokenBySize::Short(done) => side.hand_in(done),
                TokenBySize::Middle(_) => unreachable!(),
                TokenBySize::Long(_) => unreachable!(),
            },
            ConsumerBySize::Middle(side) => match token {
                TokenBySize::Short(_) => unreachable!(),
                TokenBySize::Middle(done) => side.hand_in(done),
                TokenBySize::Long(_) => unreachable!(),
            },
            ConsumerBySize::Long(side) => match token {
                TokenBySize::Short(_) => unreachable!(),
                TokenBySize::Middle(_) => unreachable!(),
                TokenBySize::Long(done) => side.hand_in(done),
            },
        }
    }

    /// Returns true if the pushing end has finished and all that it pushed was taken.
    pub(crate) fn is_drained(&mut self) -> bool
        ensures drained { IsTrue result ↔ IsDrained self.new.ring self.new.done }
        ensures ring { SameConsumer self.old.ring self.new.ring × (received self.new.ring ≡ received self.old.ring) }
        ensures done { MatchOption self.old.done (self.new.done ≡ None)
            (λ d. IsSomeAnd self.new.done (λ e. all_sent e ≡ all_sent d)) }
    {
        match &mut self.end {
            ConsumerBySize::Short(side) => side.is_drained(),
            ConsumerBySize::Middle(side) => side.is_drained(),
            ConsumerBySize::Long(side) => side.is_drained(),
        }
    }
}

/// Opens a ring whose cells have one size and returns both ends.
fn open_sized<const N: usize>(
    alloc: Global,
    format: PacketFormat,
    places: usize,
) -> Result<(SizedMarkProducer<N>, TokenConsumer<MarkCell<N>>), AllocError>
    ensures pair { IfOk result (λ r. IsPair r.0 r.1.ring) }
    ensures producer { IfOk result (λ r. (sent r.0 ≡ []) × (known_free r.0 ≡ places)) }
    ensures side { IfOk result (λ r. (received r.1.ring ≡ []) × (r.1.done ≡ None)) }
{
    let (push, pop) = RingBuffer::new(alloc, places)?;
    Ok((
        SizedMarkProducer::new(push, format),
        TokenConsumer::new(pop),
    ))
}

/// Opens a ring of `places` places for marks of a format and returns both ends.
pub(crate) fn open_marks(
    alloc: Global,
    format: PacketFormat,
    places: usize,
) -> Result<(MarkProducer, MarkConsumer), AllocError>
    requires { payload_length format ≤ 1440 }
    ensures pair { IfOk result (λ r. IsPair r.0 r.1.ring) }
    ensures producer { IfOk result (λ r. (sent r.0 ≡ []) × (known_free r.0 ≡ places)) }
    ensures side { IfOk result (λ r. (received r.1.ring ≡ []) × (r.1.done ≡ None)) }
    ensures space { IfOk result (λ r. HasCellsFor (payload_length format) r.0) }
{
    let len = format.payload_len();
    let (push, pop) = if len <= SHORT {
        let (push, pop) = open_sized(alloc, format, places)?;
        (ProducerBySize::Short(push), ConsumerBySize::Short(pop))
    } else if len <= MIDDLE {
        let (push, pop) = open_sized(alloc, format, places)?;
        (ProducerBySize::Middle(push), ConsumerBySize::Middle(pop))
    } else {
        let (push, pop) = open_sized(alloc, format, places)?;
        (ProducerBySize::Long(push), ConsumerBySize::Long(pop))
    };
    Ok((MarkProducer { end: push }, MarkConsumer { end: pop }))
}
