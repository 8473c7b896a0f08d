//! The clock of a capture, which its packets' times move on.
ghost use Rattle.std.specs.Prelude.{◌≡◌};
ghost use Rattle.pcap_flows.specs.Clock.{clock_begun, clock_with};

/// A clock of sampling instants at 48 kHz since the first time that it read. It never goes back.
#[derive(Clone, Copy)]
pub struct CaptureClock {
    /// The first time, in nanoseconds since 1970.
    pub(crate) origin: Option<u64>,
    /// The greatest clock reading so far, in sampling instants.
    pub(crate) reading: u64,
}

impl CaptureClock {
    /// Returns a clock at 0 that has read no time yet.
    pub fn new() -> CaptureClock
        ensures { result ≡ clock_begun }
    {
        CaptureClock {
            origin: None,
            reading: 0,
        }
    }

    /// Moves the clock to a datagram's time, in nanoseconds since 1970. If there is none, or it is earlier than another
    /// one before, the clock stays.
    #[tactic(auto, unfolding(crate::specs::Clock::clock_with))]
    pub fn read(&mut self, time: Option<u64>)
        ensures { self.new ≡ clock_with self.old time }
    {
        let Some(time) = time else {
            return;
        };
        let origin = self.origin.unwrap_or(time);
        // 3 sampling instants are 62,500 nanoseconds.
        let instants = u128::from(time.saturating_sub(origin)) * 3 / 62_500;
        self.origin = Some(origin);
        self.reading = self.reading.max(instants as u64);
    }

    /// Returns the clock reading, in sampling instants at 48 kHz.
    pub fn reading(&self) -> u64
        ensures { result ≡ self.now.reading }
    {
        self.reading
    }
}
