//! A merge that takes steps, and its fates, marks and counts in words.
ghost use Rattle.std.specs.Prelude.{◌≡◌};

use super::steps::{Sent, Step, step_of};
use super::words::{say, say_counts, say_fates, say_fault, say_mark, says};
use path_merge::{Fate, Mark, MarkKind, Merge, Path, SlotWindow, SortedWindow, StreamSpec, Window};
use std::alloc::Global;
use std::process::Abort;

/// A stream's merge, the fates that it returned and its marks in words.
#[derive(Drop)]
pub struct Bench<W: Window> {
    pub spec: StreamSpec,
    pub merge: Merge<W>,
    pub fates: Vec<Fate>,
    pub marks: String,
    ghost of_stream: { merge.spec ≡ spec },
}

impl<W: Window> Bench<W> {
    /// Returns the bench of a merge that has taken no step yet.
    fn new(alloc: Global, spec: StreamSpec, merge: Merge<W>) -> Bench<W>
        requires { merge.spec ≡ spec }
    {
        Bench {
            spec,
            merge,
            fates: Vec::new(alloc),
            marks: String::new(alloc),
        }
    }

    /// Tests that the fates are these, in words.
    pub fn has_fates(&self, rt: &impl Abort, wanted: &str, shows: &str) {
        let mut text = String::new(*self.fates.allocator());
        say_fates(rt, &mut text, &self.fates);
        says(rt, &text, wanted, shows);
    }

    /// Tests that the counts are these, in words.
    pub fn has_counts(&self, rt: &impl Abort, wanted: &str, shows: &str) {
        let mut text = String::new(*self.fates.allocator());
        say_counts(rt, &mut text, &self.merge.counts());
        says(rt, &text, wanted, shows);
    }

    /// Takes the steps of a text, with commas between them.
    pub fn take_all(&mut self, rt: &impl Abort, steps: &str) {
        for words in steps.split(',') {
            self.take(rt, step_of(rt, words));
        }
    }

    /// Takes a step.
    fn take(&mut self, rt: &impl Abort, step: Step) {
        match step {
            Step::On(path, first, times) => self.offer_all(rt, path, first, times),
            Step::Tick(now) => self.tick(rt, now),
            Step::Advance(now) => self.advance(rt, now),
            Step::Close => self.close(rt),
        }
    }

    /// Offers packets in sequence, and keeps their fates.
    fn offer_all(&mut self, rt: &impl Abort, path: Path, first: Sent, times: u16) {
        let mut sent = first;
        for _ in 0..times {
            let fate = self.offer(rt, path, sent);
            self.fates.push(fate).expect(rt, "there is memory");
            sent = sent.next();
        }
    }

    /// Offers a packet, and tests that nothing is counted after a close.
    pub fn offer(&mut self, rt: &impl Abort, path: Path, sent: Sent) -> Fate {
        let packet = sent.packet(&self.spec);
        // `Merge::offer` requires these.
        assert!(rt; path.number() < self.spec.paths() && self.spec.fits(&packet));
        let before = self.merge.counts().arrived;
        let fate = self.merge.offer(path, packet);
        let counted = self.merge.counts().arrived != before;
        assert!(rt; fate != Fate::Closed || !counted, "counted after a close");
        fate
    }

    /// Advances until the reading is passed, one mark a call, and tests that each slot comes at its deadline.
    pub fn tick(&mut self, rt: &impl Abort, now: i64) {
        // The bound ends the loop if a merge never comes to the reading. No step of a case has 1,000 marks.
        for _ in 0..1000u32 {
            let given = self.merge.advance(now);
            let Some(mark) = given.expect(rt, "the reading is in order") else {
                break;
            };
            let late = lateness(&mark, self.merge.time());
            assert!(rt;
                late == None || late == Some(i64::from(self.spec.latency())),
                "a slot's deadline"
            );
            say_mark(rt, &self.spec, &mut self.marks, &mark);
        }
        assert!(rt; self.merge.time() == now, "the reading is not passed");
    }

    /// Calls `advance` once, and appends its mark, `nothing` or the fault, and the time after it.
    fn advance(&mut self, rt: &impl Abort, now: i64) {
        match self.merge.advance(now) {
            Ok(Some(mark)) => say_mark(rt, &self.spec, &mut self.marks, &mark),
            Ok(None) => say(rt, &mut self.marks, "nothing"),
            Err(fault) => say_fault(rt, &mut self.marks, fault),
        }
        let time = self.merge.time();
        write!(self.marks, " at {time}").expect(rt, "there is memory");
    }

    /// Closes and drains, one mark a call, and tests that a second close and further drains change nothing.
    pub fn close(&mut self, rt: &impl Abort) {
        assert!(rt;
            self.merge.closed() || self.merge.drain().is_none(),
            "drained before the close"
        );
        self.merge.close();
        assert!(rt; self.merge.closed());
        self.merge.close();
        self.drain_all(rt);
        assert!(rt; self.merge.drain().is_none(), "drained after the end");
    }

    /// Drains the marks that are left.
    fn drain_all(&mut self, rt: &impl Abort) {
        for _ in 0..1000u32 {
            let Some(mark) = self.merge.drain() else {
                break;
            };
            say_mark(rt, &self.spec, &mut self.marks, &mark);
        }
    }
}

/// Returns a bench of a merge over a window of slots.
pub fn slots_bench(
    rt: &impl Abort,
    alloc: Global,
    spec: StreamSpec,
    open_at: i64,
) -> Bench<SlotWindow> {
    // `Merge::new` requires an opening time from 0 to 2^60. The cases have small ones.
    assert!(rt; 0 <= open_at && open_at <= 1_000_000);
    let merge = Merge::new(alloc, spec, open_at).expect(rt, "there is memory");
    Bench::new(alloc, spec, merge)
}

/// Returns a bench of a merge over a sorted window.
pub fn sorted_bench(
    rt: &impl Abort,
    alloc: Global,
    spec: StreamSpec,
    open_at: i64,
) -> Bench<SortedWindow> {
    // As in `slots_bench`.
    assert!(rt; 0 <= open_at && open_at <= 1_000_000);
    let window = SortedWindow::new(alloc, &spec).expect(rt, "there is memory");
    let merge = Merge::with_window(window, spec, open_at);
    Bench::new(alloc, spec, merge)
}

/// Returns how long after its media time a slot comes at this time, in sampling instants. None for other marks.
fn lateness(mark: &Mark, time: i64) -> Option<i64> {
    match mark.kind() {
        MarkKind::Slot { media, .. } => Some(time.wrapping_sub(*media)),
        MarkKind::Quiet { .. } | MarkKind::End => None,
    }
}
