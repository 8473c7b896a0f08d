//! The steps of a capture's time, which show that its clock was set.
ghost use Rattle.std.specs.Prelude.{◌≡◌};
ghost use Rattle.pcap_flows.specs.CaptureTimes as spec;

/// A step of a capture's time.
#[derive(Clone, Copy, Debug, PartialEq, Eq)]
pub(crate) struct TimeStep {
    /// The UDP packet with which the time steps, counted from 0.
    pub packet: u64,
    /// The length of the step, in nanoseconds.
    pub nanoseconds: u64,
}

/// A step of a capture's time that is too long to be the passing of time.
#[derive(Clone, Copy, Debug, PartialEq, Eq)]
pub struct TimeJump {
    /// The UDP packet with which the time steps, counted from 0.
    pub packet: u64,
    /// The length of the step in seconds, rounded up.
    pub seconds: u64,
    /// True if the time steps back.
    pub is_back: bool,
}

/// The longest steps of the times of a capture's UDP packets, each from the latest time before it.
// Steps count from the latest time, so that packets that were captured slightly out of order add up to nothing.
#[derive(Clone, Copy)]
pub(crate) struct CaptureTimes {
    /// The number of packets so far.
    pub packets: u64,
    /// The latest time so far, in nanoseconds since 1970.
    pub latest: Option<u64>,
    /// The longest step forward.
    pub ahead: TimeStep,
    /// The longest step back.
    pub back: TimeStep,
}

impl CaptureTimes {
    /// Returns the times of no packet.
    pub(crate) fn new() -> CaptureTimes
        ensures { result ≡ spec.times_begun }
    {
        let none = TimeStep {
            packet: 0,
            nanoseconds: 0,
        };
        CaptureTimes {
            packets: 0,
            latest: None,
            ahead: none,
            back: none,
        }
    }

    /// Adds the next packet's time, in nanoseconds since 1970.
    #[tactic(auto, unfolding(crate::specs::CaptureTimes::times_with))]
    pub(crate) fn add(&mut self, time: Option<u64>)
        ensures { self.new ≡ spec.times_with self.old time }
    {
        let packet = self.packets;
        self.packets = self.packets.saturating_add(1);
        let Some(time) = time else {
            return;
        };
        let latest = self.latest.unwrap_or(time);
        self.latest = Some(latest.max(time));
        self.ahead = self.ahead.or_longer(packet, latest, time);
        self.back = self.back.or_longer(packet, time, latest);
    }

    /// Returns the longest step back if it is longer than a second, or else the longest step forward if it is longer
    /// than `gap` seconds.
    #[tactic(auto, unfolding(crate::specs::CaptureTimes::jump_of))]
    pub(crate) fn jump(&self, gap: u64) -> Option<TimeJump>
        ensures { result ≡ spec.jump_of self.now gap }
    {
        let (back, ahead) = (self.back.seconds(), self.ahead.seconds());
        if back > 1 {
            Some(TimeJump {
                packet: self.back.packet,
                seconds: back,
                is_back: true,
            })
        } else if ahead > gap {
            Some(TimeJump {
                packet: self.ahead.packet,
                seconds: ahead,
                is_back: false,
            })
        } else {
            None
        }
    }
}

impl TimeStep {
    /// Returns the step of a packet from one time to a later one, if it is longer than this one, or else this one.
    fn or_longer(self, packet: u64, from: u64, time: u64) -> TimeStep
        ensures { result ≡ spec.longer self (spec.step_to packet from time) }
    {
        let nanoseconds = time.saturating_sub(from);
        if self.nanoseconds < nanoseconds {
            TimeStep {
                packet,
                nanoseconds,
            }
        } else {
            self
        }
    }

    /// Returns its length in seconds, rounded up: the least `--gap` that allows it.
    fn seconds(&self) -> u64
        ensures { result ≡ spec.seconds_in self.now.nanoseconds }
    {
        self.nanoseconds.div_ceil(1_000_000_000)
    }
}
