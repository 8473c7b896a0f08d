//! The sockets, clock and record of a live run: a feed per path, a sink of two copies, and the pcapng
//! file of what arrived.
//!
//! 1. `LivePorts::of` finds the ports that a studio needs, or returns the first that is missing.
//!    `addresses_of` returns the addresses of each path, and `InheritedSockets::from_env` the sockets
//!    that systemd passed in.
//! 2. `tai_now` returns the present International Atomic Time, at which a studio can be opened.
//!    `RunPeriod` has the clock of the run, and decides when the feeds end.
//! 3. `open_sockets` binds a socket for each path and two for the output, by a `SocketConfig`, except
//!    those that are inherited. `udp_feeds` makes a `Feed` of each receiving socket. A feed takes what
//!    its socket has, and waits by a `ReceivePace`, unless flags say which sockets are to be read. It reads its
//!    socket as a `RetryingSocket`, which tries a socket that fails less and less often.
//!    `UdpSink` is the `Sink` of the two sending sockets. `TimelySink` leaves out the datagrams of the mix that are
//!    useless to every receiver, and sends those later in whose block streams are missing, as `LateSettings` say.
//!    `HoldUp` says what a feed leaves out after a hold-up, until the mix has caught up.
//!    `copy_whole` leaves out the datagrams that are too long.
//! 4. `RecordOutput` is the record as an output of a run. It creates a `RecordChannel`, which has two
//!    ends of a ring. The thread of the run passes each datagram and each change of gains to its
//!    `RecordObserver`, which pushes whole blocks and never waits. `write_record`, in another thread,
//!    writes them to the file. If the file is too slow and the ring is full, or a write fails, the record
//!    ends there, with a whole block. A `RecordFile` is where the blocks go, and can be cut behind the
//!    last of them; `CreateRecord` creates one. Both ends set the record's `OutputProgress`.
//!
//! `is_ready` tests if a read or a write of a descriptor, such as `STDIN`, would return at once.
#![tactic(auto)]

mod clock;
mod descriptors;
mod path_count;
mod record;
mod sockets;
mod tai;

pub use clock::{PauseClock, RunPeriod, SystemClock};
pub use descriptors::{STDERR, STDIN, is_ready};
pub use record::RecordChannel;
pub use record::file::{CreateRecord, RecordFault, RecordFile};
pub use record::observer::RecordObserver;
pub use record::output::{RecordOutput, RecordTask};
pub use record::writer::{FileResult, RecordWriter, write_record};
pub use sockets::feed::{FeedFlags, UdpFeed, udp_feeds};
pub use sockets::group_table::{has_group, read_joined_groups};
pub use sockets::health::{RunHealth, SendHealth, SocketHealth};
pub use sockets::hold_up::HoldUp;
pub use sockets::inherited::{InheritedSocketFault, InheritedSockets};
pub use sockets::late::LateSettings;
pub use sockets::late::copy_time::CopyTime;
pub use sockets::mix_times::{MixDue, MixProgress, MixTimes, greatest_latency};
pub use sockets::pace::{ReceivePace, ReceiveWait, common_pause};
pub use sockets::ports::LivePorts;
pub use sockets::receiver::Receiver;
pub use sockets::retrying::{DatagramSocket, RetryingSocket};
pub use sockets::sharing::{PathPlace, have_collision};
pub use sockets::sink::{SendingSocket, UdpSender, UdpSink};
pub use sockets::timely_sink::TimelySink;
pub use sockets::udp_table::{drops_in, read_kernel_drops};
pub use sockets::unexpected::UnexpectedSources;
pub use sockets::unopened::{SystemReason, UnopenedSocket, unopened_socket};
pub use sockets::whole_datagrams::copy_whole;
pub use sockets::{SocketConfig, Sockets, open_sockets};
pub use tai::{TaiOffset, TaiTime, tai_now};
