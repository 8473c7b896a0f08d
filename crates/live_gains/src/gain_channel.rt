//! The channel between a page that requests gains and a run: `page_requester` is the page's end, `run_gains` the run's
//! end. They pass `messages` to each other through two rings of one place, and share a `link`. The run's end keeps the
//! times of the changes that are still to come (`planned`).
ghost use Rattle.std.specs.Prelude.{◌≡◌, ℤ, [], IfOk, IfSome};
ghost use Rattle.rtrb.specs.Ring.{received, sent};

use crate::link::GainLink;
use crate::messages::Numbered;
use crate::page_requester::PageRequester;
use crate::planned::planned_of;
use crate::run_gains::RunGains;
use rtrb::RingBuffer;
use status_page::GainShape;
use std::alloc::{AllocError, Global};
use std::sync::Wait;
use std::time::Clock;
use studio_config::StudioSpec;

/// The two ends of a channel.
#[derive(Drop)]
pub struct GainChannel<'a, R> {
    /// The end in the page's thread, which requests gains.
    pub requester: PageRequester<'a, R>,
    /// The end in the run's thread, which answers.
    pub gains: RunGains<'a, R>,
}

impl<'a, R: Wait + Clock> GainChannel<'a, R> {
    ghost use Rattle.live_gains.specs.GainChannel.{PlansFrom, changes_by};

    /// Returns the two ends of a channel for the gains of a run of this studio, whose matrix has this shape. Allocates
    /// all its memory, and returns `AllocError` if that fails.
    // One message is on its way at a time: the memory for gains travels with it. So one place in each ring is enough.
    pub fn new(
        rt: &'a R,
        alloc: Global,
        link: &'a GainLink,
        shape: GainShape,
        studio: &StudioSpec,
    ) -> Result<GainChannel<'a, R>, AllocError>
        ensures asked { IfOk result (λ channel. sent channel.requester.requests ≡ []) }
        ensures heard { IfOk result (λ channel. received channel.requester.outcomes ≡ []) }
        ensures taken { IfOk result (λ channel. changes_by channel.gains ≡ []) }
        ensures planned { IfOk result (λ channel. (from : ℤ) → PlansFrom studio.now from channel.gains) }
    {
        let (requests, asked) = RingBuffer::with_protocol::<Global, Numbered>(alloc, 1)?;
        let (answers, outcomes) = RingBuffer::with_protocol::<Global, Numbered>(alloc, 1)?;
        Ok(GainChannel {
            requester: PageRequester::new(rt, alloc, link, shape, requests, outcomes)?,
            gains: RunGains::new(rt, link, asked, answers, planned_of(alloc, studio)?),
        })
    }
}
