//! The test of an engine's next deadline, the clock reading before which no datagram comes.
use super::calls::TAKEN;
use super::studios::{Step, play};

const DEADLINES: [Step; 9] = [
    Step::Deadline(Some(18)),
    Step::Hand(0, 1, TAKEN),
    Step::Deadline(Some(12)),
    Step::Give(12, 0, 1),
    Step::Deadline(None),
    Step::Turn(12, Ok(None)),
    Step::Deadline(Some(18)),
    Step::Close(Ok(())),
    Step::Deadline(None),
];

/// Without a packet the first block of 6 sampling instants is silence and comes at 18, a latency after its end. With a
/// packet at 0 it comes at 12. There is no deadline within a turn and none after a close.
#[test]
fn the_next_deadline_is_that_of_the_block(rt: HostRuntime) {
    play(&rt, rt.alloc(), &DEADLINES);
}
