//! The tests of a lane's calls, from silence to the end: its cover, the marks that it wants and refuses, a full lane,
//! and failed allocations.
ghost use Rattle.std.specs.Prelude.{◌≡◌};
ghost use Rattle.rtp_stream.specs.MarkFacts.{HasLength, payload_length};

use super::cases::{STREAM, spec_of};
use lane_align::{Cover, Lane};
use rtp_stream::{Body, Mark, PacketFormat, Stream, StreamSpec};
use rtp_wire::Payload;
use std::alloc::Global;
use std::process::Abort;

/// Returns a stream of one channel, in packets of 6 sampling instants.
fn mono(rt: &impl Abort) -> StreamSpec
    ensures channels { result.channels ≡ 1 }
    ensures frames { result.frames ≡ 6 }
{
    let spec = spec_of(rt, STREAM);
    // The contract of `spec_of` does not say these, so they are tested.
    assert!(rt; spec.channels() == 1 && spec.frames() == 6);
    spec
}

/// A mark in plain values.
#[derive(Clone, Copy)]
enum Plain {
    /// Silence up to a media time.
    Quiet(i16),
    /// A lost slot: its epoch, number and media time.
    Lost(u8, u32, i16),
    /// A slot with these samples: its epoch, number and media time.
    Got(u8, u32, i16, [u8; 6]),
    End,
}

/// Returns the mark of these values, in a stream of this format.
fn mark_of(format: PacketFormat, plain: Plain) -> Mark {
    match plain {
        Plain::Quiet(until) => Mark::quiet(format, i64::from(until)),
        Plain::Lost(epoch, number, media) => slot(format, epoch, number, media, Body::Lost),
        Plain::Got(epoch, number, media, samples) => {
            slot(format, epoch, number, media, body_of(format, &samples))
        }
        Plain::End => Mark::end(format),
    }
}

/// Returns the slot of these values.
fn slot(format: PacketFormat, epoch: u8, number: u32, media: i16, body: Body) -> Mark
    requires { HasLength (payload_length format) body }
{
    let (epoch, number) = (u64::from(epoch), u64::from(number));
    Mark::slot(format, epoch, number, i64::from(media), body)
}

/// Returns a payload of L24 with these samples, or a lost body if they do not fill a packet of the format.
fn body_of(format: PacketFormat, samples: &[u8]) -> Body
    ensures { HasLength (payload_length format) result }
{
    let mut octets = Payload::new();
    for sample in samples {
        let _ = octets.try_push(0);
        let _ = octets.try_push(0);
        let _ = octets.try_push(*sample);
    }
    if octets.len() != format.payload_len() {
        return Body::Lost;
    }
    Body::Got(octets)
}

/// A call of a lane, and its result.
#[derive(Clone, Copy)]
enum Step {
    /// The lane wants and accepts this mark, and is fed it.
    Feed(Plain),
    /// The lane accepts this mark and has space for it, and keeps it. It may not want it yet.
    Keep(Plain),
    /// The lane has no space for this mark.
    NoRoom(Plain),
    /// The lane does not accept this mark after those that it has.
    Refuse(Plain),
    /// The lane does not accept this mark of a stream of two channels.
    RefuseOther(Plain),
    /// The lane wants a mark before this time.
    Wants(i64),
    /// The lane wants no mark for the next block.
    Covered,
    /// The lane's cover.
    CoverIs(Cover),
    /// The time at which the last mark ends.
    EndIs(i64),
    /// The next block has these samples.
    Play([i32; 12]),
    /// The block before has this presence: 1 in the frames of packets that came, and 0 in the others.
    Present([i32; 12]),
}

/// A lane of one channel, and blocks of twelve.
#[derive(Drop)]
struct Player {
    lane: Lane,
    ghost block: { lane.block ≡ 12 },
    ghost channels: { lane.format.channels ≡ 1 },
}

impl Player {
    /// Returns a player whose lane begins at this media time.
    fn new(rt: &impl Abort, alloc: Global, start: u8) -> Player {
        let lane = Lane::new(alloc, mono(rt), i64::from(start), 12);
        Player {
            lane: lane.expect(rt, "there is memory"),
        }
    }

    /// Returns a player whose lane begins at media time 0 and has space for this many frames.
    fn with_capacity(rt: &impl Abort, alloc: Global, frames: u32) -> Player {
        // `Lane::with_capacity` requires space for a block and a packet at least.
        assert!(rt; 18 <= frames && frames <= 1_000);
        let lane = Lane::with_capacity(alloc, mono(rt), 0, 12, frames);
        Player {
            lane: lane.expect(rt, "there is memory"),
        }
    }

    /// Takes these steps, and tests each result.
    fn take(&mut self, rt: &impl Abort, steps: &[Step]) {
        for (place, step) in steps.iter().enumerate() {
            assert!(rt; self.gives_result(*step), "step {place}");
        }
    }

    /// Takes a step, and returns true if its result was the step's.
    fn gives_result(&mut self, step: Step) -> bool {
        let format = self.lane.format();
        match step {
            Step::Feed(plain) => self.feeds(&mark_of(format, plain)),
            Step::Keep(plain) => self.keeps(&mark_of(format, plain)),
            Step::NoRoom(plain) => self.has_no_space(plain),
            Step::Refuse(plain) => self.refuses(format, plain),
            Step::RefuseOther(plain) => {
                let other = PacketFormat {
                    channels: 2,
                    ..format
                };
                self.refuses(other, plain)
            }
            Step::Wants(until) => self.lane.wants(until),
            Step::Covered => !self.lane.wants(self.lane.position() + 12),
            Step::CoverIs(cover) => self.lane.cover() == cover,
            Step::EndIs(end) => self.lane.end() == end,
            Step::Play(samples) => self.plays(&samples),
            Step::Present(presence) => self.lane.present() == presence.as_slice(),
        }
    }

    /// Returns true if the lane has no space for a mark.
    fn has_no_space(&self, plain: Plain) -> bool {
        let mark = mark_of(self.lane.format(), plain);
        !self.lane.has_space(&mark.as_ref())
    }

    /// Returns true if the lane does not accept a mark of this format.
    fn refuses(&self, format: PacketFormat, plain: Plain) -> bool {
        !self.lane.accepts(&mark_of(format, plain))
    }

    /// Feeds a mark, if the lane wants and accepts it, and returns true if so.
    fn feeds(&mut self, mark: &Mark) -> bool {
        let mark = mark.as_ref();
        let is_taken = self.lane.wants(self.lane.position() + 12) && self.lane.accepts_ref(&mark);
        if is_taken {
            self.lane.feed_ref(&mark);
        }
        is_taken
    }

    /// Keeps a mark, if the lane accepts it and has space for it, and returns true if so.
    fn keeps(&mut self, mark: &Mark) -> bool {
        let mark = mark.as_ref();
        let is_taken = self.lane.accepts_ref(&mark) && self.lane.has_space(&mark);
        if is_taken {
            self.lane.keep_ref(&mark);
        }
        is_taken
    }

    /// Reads the next block, and returns true if it has these samples.
    fn plays(&mut self, samples: &[i32; 12]) -> bool {
        let mut out = [0; 12];
        let position = self.lane.position();
        if position >= 1_000_000 || self.lane.wants(position + 12) {
            return false;
        }
        self.lane.read_block(&mut out);
        out == *samples
    }
}

/// A lane from 3 on, whose blocks end at 15 and 27.
const FROM_SILENCE: [Step; 21] = [
    Step::Present([0; 12]),
    Step::CoverIs(Cover::Nothing),
    Step::EndIs(3),
    Step::Feed(Plain::Quiet(-7)),
    Step::Feed(Plain::Got(0, 65_537, 0, [1, 2, 3, 4, 5, 6])),
    Step::Feed(Plain::Lost(0, 65_538, 6)),
    Step::CoverIs(Cover::Until(12)),
    Step::Wants(15),
    Step::Refuse(Plain::Lost(0, 65_540, 18)),
    Step::Feed(Plain::Got(0, 65_539, 12, [7, 8, 9, 10, 11, 12])),
    Step::Covered,
    Step::Play([4, 5, 6, 0, 0, 0, 0, 0, 0, 7, 8, 9]),
    Step::Present([1, 1, 1, 0, 0, 0, 0, 0, 0, 1, 1, 1]),
    Step::Feed(Plain::End),
    Step::CoverIs(Cover::All),
    Step::EndIs(18),
    Step::Play([10, 11, 12, 0, 0, 0, 0, 0, 0, 0, 0, 0]),
    Step::Present([1, 1, 1, 0, 0, 0, 0, 0, 0, 0, 0, 0]),
    Step::Refuse(Plain::Lost(0, 65_540, 18)),
    Step::Refuse(Plain::Quiet(18)),
    Step::Refuse(Plain::End),
];

/// A lane from 3 on takes silence, a slot of 1 to 6 at 0, a lost slot and a slot of 7 to 12, and refuses a number that
/// does not follow. Its blocks begin amid the first slot, and after the end they are zeros. The stream is present where
/// a slot came.
#[test]
fn slots_are_read_from_the_middle_of_one_to_the_end(rt: HostRuntime) {
    Player::new(&rt, rt.alloc(), 3).take(&rt, &FROM_SILENCE);
}

const A_FULL_LANE: [Step; 16] = [
    Step::Feed(Plain::Quiet(14)),
    Step::Covered,
    Step::Keep(Plain::Got(0, 70_000, 15, [1, 2, 3, 4, 5, 6])),
    Step::NoRoom(Plain::Lost(1, 9, 25)),
    Step::Keep(Plain::Got(1, 9, 24, [7, 8, 9, 10, 11, 12])),
    Step::NoRoom(Plain::Lost(1, 10, 30)),
    Step::Play([0; 12]),
    Step::Keep(Plain::Got(1, 10, 30, [13, 14, 15, 16, 17, 18])),
    Step::Keep(Plain::Lost(1, 11, 36)),
    Step::Keep(Plain::End),
    Step::Play([0, 0, 0, 1, 2, 3, 4, 5, 6, 0, 0, 0]),
    Step::Present([0, 0, 0, 1, 1, 1, 1, 1, 1, 0, 0, 0]),
    Step::Play([7, 8, 9, 10, 11, 12, 13, 14, 15, 16, 17, 18]),
    Step::Present([1; 12]),
    Step::CoverIs(Cover::All),
    Step::EndIs(42),
];

/// A lane with space for 30 frames keeps marks of two epochs before they are wanted, up to the last frame. The lane
/// begins at the next block.
#[test]
fn a_lane_is_filled_to_its_last_frame(rt: HostRuntime) {
    Player::with_capacity(&rt, rt.alloc(), 30).take(&rt, &A_FULL_LANE);
}

/// Eight slots that were got and seven that are lost, of 6 sampling instants each and from 0 on, cover a lane up to 90.
#[test]
fn got_and_lost_slots_cover_up_to_their_end(rt: HostRuntime) {
    let player = &mut Player::with_capacity(&rt, rt.alloc(), 90);
    for place in 0..15u8 {
        let number = 65_537 + u32::from(place);
        let media = 6 * i16::from(place);
        let slot = if place < 8 {
            Plain::Got(0, number, media, [100; 6])
        } else {
            Plain::Lost(0, number, media)
        };
        player.take(&rt, &[Step::Keep(slot)]);
    }
    player.take(&rt, &[Step::CoverIs(Cover::Until(90)), Step::EndIs(90)]);
}

const FOLLOWERS: [Step; 17] = [
    Step::Keep(Plain::Quiet(3)),
    Step::Refuse(Plain::Quiet(3)),
    Step::Refuse(Plain::Lost(0, 70_000, 2)),
    Step::RefuseOther(Plain::Quiet(4)),
    Step::RefuseOther(Plain::Lost(0, 70_000, 3)),
    Step::Keep(Plain::Lost(0, 70_000, 27)),
    Step::Refuse(Plain::Lost(1, 9, 32)),
    Step::Refuse(Plain::Lost(2, 9, 50)),
    Step::Refuse(Plain::Lost(0, 70_001, 34)),
    Step::Refuse(Plain::Lost(0, 70_000, 33)),
    Step::Refuse(Plain::Lost(0, 70_002, 33)),
    Step::Refuse(Plain::Quiet(40)),
    Step::Keep(Plain::Lost(1, 9, 33)),
    Step::Keep(Plain::End),
    Step::Refuse(Plain::Lost(1, 10, 39)),
    Step::Refuse(Plain::Quiet(60)),
    Step::Refuse(Plain::End),
];

/// After silence up to 3, a slot at 27, a slot of the next epoch and the end, a lane refuses marks of other times,
/// numbers, epochs and streams.
#[test]
fn marks_that_do_not_follow_are_refused(rt: HostRuntime) {
    Player::new(&rt, rt.alloc(), 22).take(&rt, &FOLLOWERS);
}

/// A lane is made twice: if one allocation fails, at most one of the two calls returns an error.
#[test]
fn each_refused_allocation_is_answered(rt: HostRuntime) {
    let spec = spec_of(
        &rt,
        Stream {
            channels: 8,
            frames: 48,
            ..STREAM
        },
    );
    let first = is_made(rt.alloc(), spec);
    let second = is_made(rt.alloc(), spec);
    assert!(rt; first || second, "with memory again");
}

/// Returns true if a lane was made. Returns false if an allocation failed.
fn is_made(alloc: Global, spec: StreamSpec) -> bool {
    Lane::new(alloc, spec, 0, 192).is_ok()
}
