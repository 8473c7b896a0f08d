//! A sink that leaves out the datagrams of the mix that are useless to every receiver, and sends the copies later in
//! which streams are missing.
ghost use Rattle.std.specs.Prelude.{◌≡◌, ◌*◌, ◌∷◌, [], Bool, true, false, None, IfOk};
ghost use Rattle.studio_io.specs.Sinks.{Hands};
ghost use Rattle.studio_io.specs.declared.sink.SendAnswer.{SendAnswer};
ghost use Rattle.live_io.specs.LateCopies.{Takes, late_of};
ghost use Rattle.live_io.specs.MixTimes.{IsStale, due_after, due_of};
ghost use Rattle.live_io.specs.declared.sockets.late.copy_time.CopyTime.TheVariants.{AtOnce, Late, Later, Never};

use crate::sockets::health::RunHealth;
use crate::sockets::late::copy_time::CopyTime;
use crate::sockets::late::waiting::WaitingCopy;
use crate::sockets::late::{LateCopies, LateSettings};
use crate::sockets::mix_times::{MixDue, MixTimes};
use std::alloc::{AllocError, Global};
use std::sync::Wait;
use std::thread::Parker;
use std::time::Duration;
use studio_io::{Clock, Missing, MixedBlock, SendAnswer, Sink};

/// The answer for a datagram that neither address takes.
const FAILED: SendAnswer = SendAnswer { a: false, b: false };

/// The answer for a datagram that is sent later, or that is left out on purpose.
const TAKEN: SendAnswer = SendAnswer { a: true, b: true };

/// The number of looks at the copies that wait at the end of a run, each a millisecond after the one before.
// So a run ends at most about a second later.
const LAST_LOOKS: u32 = 1000;

/// A sink that passes each datagram of the mix to another sink, unless it is stale. A stale one is passed on to
/// neither address, and counts as a fault of both.
///
/// With a delay of late copies, those in whose block streams are missing wait before they are passed on, by their
/// `CopyTime`, or are left out. They count as taken when they come.
// After a hold-up the whole backlog of the mix would leave in one burst, and nobody could play it.
#[derive(Drop)]
pub struct TimelySink<'a, K, C> {
    sink: K,
    clock: C,
    times: MixTimes,
    late: LateCopies,
    health: &'a RunHealth,
}

impl<'a, K: Sink, C: Clock> TimelySink<'a, K, C> {
    /// Returns a sink that was passed no datagram yet, by the clock of its run. Returns `AllocError` if the allocation
    /// for the copies that wait fails.
    pub fn new(
        alloc: Global,
        sink: K,
        clock: C,
        settings: LateSettings,
        health: &'a RunHealth,
    ) -> Result<TimelySink<'a, K, C>, AllocError>
        ensures { IfOk result (λ timely. timely.sink ≡ sink) }
    {
        let times = health.mix().begin();
        let late = LateCopies::new(alloc, settings)?;
        Ok(TimelySink {
            sink,
            clock,
            times,
            late,
            health,
        })
    }

    /// Sends the copies that wait, each at its time, and leaves out those that would wait for more than about a second.
    /// The run has ended. It blocks the calling thread.
    pub fn finish<R: Wait>(&mut self, rt: &R) {
        let parker = Parker::new();
        for _ in 0..LAST_LOOKS {
            let now = self.clock.now();
            self.send_waiting(now);
            if self.late.len() == 0 {
                return;
            }
            parker.park_timeout(rt, Duration::from_millis(1));
        }
        self.health.mix().note_left_out(self.late.clear());
    }

    /// Passes on the datagram of the next block, in which this is missing, at this time, and then the copies whose time
    /// has come.
    fn send_at(&mut self, now: i64, datagram: &[u8], missing: Missing) -> SendAnswer {
        // Without a delay nobody has a whole copy to set against it.
        if missing.streams > 0 && self.late.delay() > 0 {
            self.health.mix().note_incomplete();
        }
        let answer = self.pass_on(now, datagram, missing);
        self.send_waiting(now);
        self.times.advance();
        // After the send: a feed that finds the mix in time may take what arrives.
        self.health.mix().set_due(self.times.due());
        answer
    }

    /// Passes on the datagram of the next block, in which this is missing, unless it is stale, or has it wait, or
    /// leaves it out.
    fn pass_on(&mut self, now: i64, datagram: &[u8], missing: Missing) -> SendAnswer
        ensures sent { late_of self.old.late.settings missing now ≡ AtOnce
            → (IsStale (due_of self.old.times) now → ⊥)
            → Hands (K.handed self.old.sink) (datagram.now ∷ []) (K.handed self.new.sink) }
        ensures stale { late_of self.old.late.settings missing now ≡ AtOnce
            → IsStale (due_of self.old.times) now → result ≡ record { a = false; b = false } }
        ensures left_out { late_of self.old.late.settings missing now ≡ AtOnce
            → IsStale (due_of self.old.times) now → self.new.sink ≡ self.old.sink }
        ensures late { late_of self.old.late.settings missing now ≡ Late
            → (took : Bool) × Takes took (due_after self.old.late.settings.late self.old.times) datagram.now
            self.old.late.late self.new.late.late × (self.new.late.later ≡ self.old.late.later) }
        ensures later { late_of self.old.late.settings missing now ≡ Later
            → (took : Bool) × Takes took (due_after (2 * self.old.late.settings.late) self.old.times) datagram.now
            self.old.late.later self.new.late.later × (self.new.late.late ≡ self.old.late.late) }
        ensures waits { (late_of self.old.late.settings missing now ≡ AtOnce → ⊥)
            → (self.new.sink ≡ self.old.sink) × (result ≡ record { a = true; b = true }) }
        ensures at_once { late_of self.old.late.settings missing now ≡ AtOnce → self.new.late ≡ self.old.late }
        ensures never { late_of self.old.late.settings missing now ≡ Never → self.new.late ≡ self.old.late }
        ensures times { self.new.times ≡ self.old.times }
    {
        let delay = u32::from(self.late.delay());
        match self.late.time_of(missing, now) {
            CopyTime::AtOnce => {
                let due = self.times.due();
                self.send_unless_stale(due, now, datagram)
            }
            CopyTime::Late => {
                let due = self.times.due_after(delay);
                let took = self.late.take_late(due, datagram);
                self.note_waiting(took)
            }
            CopyTime::Later => {
                let due = self.times.due_after(2 * delay);
                let took = self.late.take_later(due, datagram);
                self.note_waiting(took)
            }
            CopyTime::Never => self.note_waiting(false),
        }
    }

    /// Counts a copy as left out if it does not wait, and returns the answer for it.
    fn note_waiting(&self, waits: bool) -> SendAnswer
        ensures { result ≡ record { a = true; b = true } }
    {
        if !waits {
            self.health.mix().note_left_out(1);
        }
        TAKEN
    }

    /// Passes on the copies whose time has come, each unless it is stale.
    fn send_waiting(&mut self, now: i64) {
        for _ in 0..self.late.len() {
            let Some(copy) = self.late.next_due(now) else {
                return;
            };
            self.send_late(now, &copy);
        }
    }

    /// Passes on a copy that has waited, unless it is stale.
    fn send_late(&mut self, now: i64, copy: &WaitingCopy)
        ensures sent { (IsStale copy.now.due now → ⊥)
            → Hands (K.handed self.old.sink) (copy.now.datagram.items ∷ []) (K.handed self.new.sink) }
        ensures left_out { IsStale copy.now.due now → self.new.sink ≡ self.old.sink }
        ensures late { self.new.late ≡ self.old.late }
        ensures times { self.new.times ≡ self.old.times }
    {
        if !copy.due.is_stale(now) {
            self.health.mix().note_sent_late();
        }
        let _answer = self.send_unless_stale(copy.due, now, copy.datagram.as_slice());
    }

    /// Passes on a datagram that is due at this time, unless it is stale.
    fn send_unless_stale(&mut self, due: MixDue, now: i64, datagram: &[u8]) -> SendAnswer
        ensures sent { (IsStale due now → ⊥)
            → Hands (K.handed self.old.sink) (datagram.now ∷ []) (K.handed self.new.sink) }
        ensures stale { IsStale due now → result ≡ record { a = false; b = false } }
        ensures left_out { IsStale due now → self.new.sink ≡ self.old.sink }
        ensures late { self.new.late ≡ self.old.late }
        ensures times { self.new.times ≡ self.old.times }
    {
        if due.is_stale(now) {
            return self.leave_out();
        }
        self.sink.send(datagram)
    }

    /// Counts a stale datagram, and returns the result for it.
    fn leave_out(&self) -> SendAnswer
        ensures { result ≡ record { a = false; b = false } }
    {
        self.health.mix().note_stale();
        self.health.sends().note(false, false);
        FAILED
    }
}

impl<K: Sink, C: Clock> Sink for TimelySink<'_, K, C> {
    ghost handed = { λ sink. None };

    ghost answered = { λ sink. None };

    fn send(&mut self, datagram: &[u8]) -> SendAnswer {
        let now = self.clock.now();
        self.send_at(now, datagram, Missing::NOTHING)
    }

    fn send_block(&mut self, datagram: &[u8], block: &MixedBlock<'_>) -> SendAnswer {
        let now = self.clock.now();
        self.send_at(now, datagram, block.missing)
    }
}
