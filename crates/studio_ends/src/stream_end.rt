//! The end of a stream as a struct. `packets_in` takes packets, `marks_out` pushes marks, and `turns` holds the public
//! calls.
ghost use Rattle.std.specs.Prelude.{◌≡◌, vec_len};
ghost use Rattle.rtp_stream.specs.MarkFacts.{payload_length};
ghost use Rattle.rtp_stream.specs.StreamSpecFacts.{format_of};
ghost use Rattle.studio_ends.specs.CellSizes.{HasCellsFor};

use crate::rings::marks::MarkProducer;
use crate::rings::packets::PacketConsumer;
use path_merge::{Merge, SlotWindow};
use rtp_stats::StreamStatsSender;
use rtp_stream::{Counts, StreamSpec};
use rtrb::Producer;

pub(crate) mod marks_out;
pub(crate) mod packets_in;
pub(crate) mod turns;

/// The end of a stream. It takes the packets of all paths and pushes marks to the mixer's end.
#[derive(Drop)]
pub struct StreamEnd {
    pub(crate) spec: StreamSpec,
    pub(crate) sides: Vec<PacketConsumer>,
    pub(crate) marks: MarkProducer,
    pub(crate) monitor: Producer<Counts>,
    pub(crate) merge: Merge<SlotWindow>,
    /// The sender of the packets' statistics; `None` if the rings were opened without them.
    pub(crate) sender: Option<StreamStatsSender>,
    ghost same: { merge.spec ≡ spec },
    ghost paths: { vec_len sides ≡ spec.paths },
    ghost cells: { HasCellsFor (payload_length (format_of spec)) marks },
}
