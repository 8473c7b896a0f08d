//! The times of the packets of two flows, whose skew is measured while a capture is read.
ghost use Rattle.std.specs.Prelude.{◌≡◌, IfOk, OnOk, Some, vec_len};
ghost use Rattle.pcap_flows.specs.Skew.{no_numbers};

use crate::packet::{FlowKey, FlowPacket};
use crate::sequence::{CYCLE, first_number, number_near};
use crate::skew::{DelayBounds, Skew, Times, bounds_with, set_time, skew_in, skew_within};
use std::alloc::{AllocError, Global};

/// The greatest number of delays of a pair that are kept. Of further ones only the least and the greatest are.
// They take 2 MiB next to the 2.5 MiB of the pair's times, so that 16 pairs take 72 MiB, however long the capture is. A
// stream with packets of 1 ms has this many in four minutes.
pub(crate) const MAX_DELAYS: usize = 262_144;

/// Two flows that are paths of one stream.
#[derive(Clone, Copy)]
pub(crate) struct FlowPair {
    /// The flow from which delays count.
    pub first: FlowKey,
    /// The other flow.
    pub second: FlowKey,
}

/// The times and skews of a pair while a capture is read.
#[derive(Drop)]
pub(crate) struct PairTimes {
    pair: FlowPair,
    /// The times of the last number with each 16 bits.
    times: Vec<Times>,
    /// The greatest number so far.
    greatest: Option<u64>,
    /// The first delays of the second path behind the first, in nanoseconds.
    delays: Vec<i64>,
    /// The bounds of the further ones.
    others: Option<DelayBounds>,
    ghost filled: { vec_len times ≡ 65536 },
}

impl PairTimes {
    ghost use Rattle.pcap_flows.specs.Skew.{IsSkewOf};
    ghost use Rattle.pcap_flows.specs.PairTimes.{
      number_after,
      pair_begun,
      pair_delayed,
      pair_numbered,
      pair_timed,
      pair_view,
      pair_with,
    };

    /// Returns a pair before its first packet.
    pub(crate) fn new(alloc: Global, pair: FlowPair) -> Result<PairTimes, AllocError>
        ensures { IfOk result (λ times. pair_view times ≡ pair_begun pair) }
    {
        let times = no_numbers(alloc)?;
        Ok(PairTimes {
            pair,
            times,
            greatest: None,
            delays: Vec::new(alloc),
            others: None,
        })
    }

    /// Adds the time of a packet, if it belongs to one of the flows.
    #[tactic(auto, unfolding(crate::specs::PairTimes::pair_with))]
    pub(crate) fn add(&mut self, next: &FlowPacket) -> Result<(), AllocError>
        ensures { OnOk result (pair_view self.new ≡ pair_with (pair_view self.old) next.now) }
    {
        let on_first = next.key.is_same(&self.pair.first);
        if !on_first && !next.key.is_same(&self.pair.second) {
            return Ok(());
        }
        let number = self.number_of(next.seq);
        match next.time {
            Some(time) => self.add_time(next.seq, number, on_first, time),
            None => Ok(()),
        }
    }

    /// Returns the extended number of a packet, and keeps the greatest one.
    fn number_of(&mut self, seq: u16) -> u64
        ensures number { result ≡ number_after self.old.greatest seq }
        ensures view { pair_view self.new ≡ pair_numbered (pair_view self.old) result }
    {
        let number = match self.greatest {
            None => first_number(seq),
            Some(so_far) => number_near(so_far, seq),
        };
        self.greatest = Some(self.greatest.unwrap_or(number).max(number));
        number
    }

    /// Sets the time of a number on a path, and adds its delay if both paths have it now.
    fn add_time(
        &mut self,
        seq: u16,
        number: u64,
        on_first: bool,
        time: u64,
    ) -> Result<(), AllocError>
        ensures { OnOk result (pair_view self.new ≡ pair_timed (pair_view self.old) number seq on_first (Some time)) }
    {
        match set_time(&mut self.times[usize::from(seq)], number, on_first, time) {
            Some(delay) => self.add_delay(delay),
            None => Ok(()),
        }
    }

    /// Adds a delay to those that are kept, or to the bounds of the others.
    fn add_delay(&mut self, delay: i64) -> Result<(), AllocError>
        ensures { OnOk result (pair_view self.new ≡ pair_delayed (pair_view self.old) (Some delay)) }
    {
        if self.delays.len() < MAX_DELAYS {
            Ok(self.delays.push(delay)?)
        } else {
            self.others = Some(bounds_with(self.others, delay));
            Ok(())
        }
    }

    /// Returns the skew of all packets so far, if there is one.
    pub(crate) fn skew(&mut self) -> Option<Skew>
        ensures { IsSkewOf self.old.delays.items self.old.others result }
    {
        self.delays.sort_unstable();
        skew_within(self.others, skew_in(self.delays.as_slice()))
    }
}

/// Returns the times of no packet, for each 16 bits.
#[tactic(auto, unfolding(crate::specs::Skew::no_numbers))]
fn no_numbers(alloc: Global) -> Result<Vec<Times>, AllocError>
    ensures items { IfOk result (λ times. times.items ≡ no_numbers) }
    ensures len { IfOk result (λ times. vec_len times ≡ 65536) }
{
    let times = Vec::from_elem(alloc, Times::new(0), CYCLE)?;
    Ok(times)
}
