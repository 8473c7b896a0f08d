//! A session of a studio: its streams' merges, and the mixer that takes their marks.
ghost use Rattle.std.specs.Prelude.{
  ◌≡◌,
  ℕ,
  ◌+◌,
  ◌^◌,
  ◌≤◌,
  ◌++◌,
  ℤ,
  pos,
  ◌≤ℤ◌,
  List,
  length,
  drop,
  All,
  None,
  is_some,
  IfOk,
  IfSome,
};
ghost use Rattle.mix_packets.specs.Block.{block_start};
ghost use Rattle.mix_packets.specs.OutSpec.{datagram_length};
ghost use Rattle.studio_config.specs.Studio.{Studio};
ghost use Rattle.studio_mix.specs.Output.{datagram_of};
ghost use Rattle.studio_mix.specs.Ready.{is_ready};
ghost use Rattle.studio_session.specs.Event.{TraceEvent};
ghost use Rattle.studio_session.specs.Cursor.{IsReadyFor};
ghost use Rattle.studio_session.specs.Report.{AreCounts, ArePulled};
ghost use Rattle.studio_session.specs.Play.{AreNew, HasFilled, HasPathsBy, HasPlayed, IsRunnableBy, feeds_of};

use crate::cursor::Cursor;
use crate::feed_mixer::pull;
use crate::source::{DatagramBuffer, EventSource};
use crate::stream_counts::all_counts;
use rtp_stream::{StreamCounts, StreamSpec};
use rtp_wire::MAX_ARRIVAL_OCTETS;
use std::alloc::{AllocError, Global};
use std::marker::Model;
use studio_config::StudioSpec;
use studio_mix::Mixer;

/// The merges of a studio's streams, each with its own place in the events, and the mixer.
///
/// `next_datagram` pulls marks while the mixer wants them. Only `new` and `counts` allocate.
#[derive(Drop)]
pub struct Session {
    mixer: Mixer,
    // Each has its own place in the events, so a long latency holds up no other stream, and no queue grows.
    cursors: Vec<Cursor>,
    /// The buffer in which the source of the events lays out datagrams.
    buffer: DatagramBuffer,
}

impl Model for Session {
    ghost use Rattle.studio_session.specs.Play.{SessionState, IsSession};
    ghost use Rattle.std.specs.FinMap as map;
    ghost use Rattle.std.specs.Coded.{codes, coded_ℕ};
    ghost use Rattle.std.specs.Ordering.{nat_cmp};
    ghost use Rattle.rtp_stream.specs.contracts.packet.Packet as packet;

    ghost Value = { SessionState };

    ghost coded = { Prim.hlevel (codes, map.code {R = nat_cmp} coded_ℕ packet.the_row.coded) };

    ghost view = { λ s. record { mixer = s.mixer; cursors = s.cursors.items } };

    ghost invariant = { λ s. IsSession (view s) };
}

impl Session {
    /// Returns a session before its first event.
    pub fn new(alloc: Global, spec: &StudioSpec) -> Result<Session, AllocError>
        ensures stands { IfOk result (λ session. (events : List TraceEvent) → HasPlayed spec.now events session 0) }
        ensures ready { IfOk result (λ session. (events : List TraceEvent) → HasPathsBy spec.now events
            → All (IsReadyFor events) session.cursors) }
        ensures spec { IfOk result (λ session. session.mixer.packer.spec ≡ spec.now.output) }
    {
        let mixer = Mixer::new(alloc, spec)?;
        let cursors = studio_cursors(alloc, spec)?;
        Ok(Session {
            mixer,
            cursors,
            buffer: [0; MAX_ARRIVAL_OCTETS],
        })
    }

    /// Writes the datagram of the next block to the start of `out` and returns its length in octets, or `None` if no
    /// block is ready any more.
    pub fn next_datagram<E: EventSource>(&mut self, source: &E, out: &mut [u8]) -> Option<usize>
        requires space { datagram_length self.old.mixer.packer.spec ≤ length out.old }
        requires ready { All (IsReadyFor (E.events source.now)) self.old.cursors }
        ensures ready { All (IsReadyFor (E.events source.now)) self.new.cursors }
        ensures given { (studio : Studio) (next : ℕ)
            → IsRunnableBy studio (E.events source.now) → HasPlayed studio (E.events source.now) self.old next
            → is_some result ≡ is_ready studio.output (feeds_of studio (E.events source.now)) next }
        ensures some { IfSome result (λ len. (studio : Studio) (next : ℕ)
            → IsRunnableBy studio (E.events source.now) → HasPlayed studio (E.events source.now) self.old next
            → (len ≡ datagram_length studio.output)
            × (out.new ≡ datagram_of studio (feeds_of studio (E.events source.now)) next ++ drop len out.old)
            × HasPlayed studio (E.events source.now) self.new (next + 1)) }
        ensures none { result ≡ None → (studio : Studio) (next : ℕ)
            → IsRunnableBy studio (E.events source.now) → HasPlayed studio (E.events source.now) self.old next
            → HasPlayed studio (E.events source.now) self.new next }
        ensures len { IfSome result (λ len. len ≡ datagram_length self.old.mixer.packer.spec) }
        ensures number { IfSome result (λ len. self.new.mixer.packer.number ≡ self.old.mixer.packer.number + 1) }
        ensures early { IfSome result
            (λ len. block_start self.old.mixer.packer.spec self.old.mixer.packer.number ≤ℤ pos (2 ^ 61 + 192)) }
        ensures spec { self.new.mixer.packer.spec ≡ self.old.mixer.packer.spec }
    {
        fill(
            &mut self.mixer,
            self.cursors.as_mut_slice(),
            source,
            &mut self.buffer,
        );
        self.mixer.next_block(out)
    }

    /// Returns the cursors of the streams, for the marks that are left. Call it once no block is ready any more.
    pub fn into_cursors(self) -> Vec<Cursor>
        ensures pulled { (studio : Studio) (events : List TraceEvent) (next : ℕ) → HasPlayed studio events self next
            → ArePulled studio events result.items }
        ensures ready { (events : List TraceEvent) → All (IsReadyFor events) self.cursors
            → All (IsReadyFor events) result.items }
    {
        self.cursors
    }

    /// Returns the counts of each stream after all its marks. Call it once no block is ready any more, since the
    /// marks that weren't fed are dropped.
    pub fn counts<E: EventSource>(
        mut self,
        alloc: Global,
        source: &E,
    ) -> Result<Vec<StreamCounts>, AllocError>
        requires ready { All (IsReadyFor (E.events source.now)) self.cursors }
        ensures { IfOk result (λ counts. (studio : Studio) (next : ℕ)
            → IsRunnableBy studio (E.events source.now) → HasPlayed studio (E.events source.now) self next
            → AreCounts studio (E.events source.now) counts.items) }
    {
        let counts = all_counts(alloc, self.cursors.as_mut_slice(), source)?;
        Ok(counts)
    }
}

/// Returns a cursor for each stream of a studio, before the first event.
pub fn studio_cursors(alloc: Global, spec: &StudioSpec) -> Result<Vec<Cursor>, AllocError>
    ensures new { IfOk result (λ cursors.
        AreNew spec.now.streams spec.now.open_at cursors.items (length spec.now.streams)) }
    ensures ready { IfOk result (λ cursors. (events : List TraceEvent) → HasPathsBy spec.now events
        → All (IsReadyFor events) cursors.items) }
{
    let cursors = new_cursors(alloc, spec.streams(), spec.open_at())?;
    Ok(cursors)
}

/// Returns a cursor for each stream, before the first event.
fn new_cursors(
    alloc: Global,
    streams: &[StreamSpec],
    open_at: i64,
) -> Result<Vec<Cursor>, AllocError>
    requires not_low { pos 0 ≤ℤ open_at }
    requires not_high { open_at ≤ℤ pos (2 ^ 60) }
    requires few { length streams.now ≤ 16 }
    ensures { IfOk result (λ cursors. AreNew streams.now open_at cursors.items (length streams.now)) }
{
    let mut cursors = Vec::new(alloc);
    for (number, stream) in streams.iter().enumerate() {
        let cursor = Cursor::new(alloc, *stream, number as u8, open_at)?;
        cursors.push(cursor)?;
    }
    Ok(cursors)
}

/// Feeds each stream's marks to the mixer until it wants no more, or all events were taken.
fn fill<E: EventSource>(
    mixer: &mut Mixer,
    cursors: &mut [Cursor],
    source: &E,
    buffer: &mut DatagramBuffer,
)
    requires streams { length cursors.old ≡ length mixer.old.lanes }
    requires ready { All (IsReadyFor (E.events source.now)) cursors.old }
    ensures ready { All (IsReadyFor (E.events source.now)) cursors.new }
    ensures stands { (studio : Studio) (next : ℕ) → IsRunnableBy studio (E.events source.now)
        → HasPlayed studio (E.events source.now) (record { mixer = mixer.old; cursors = cursors.old }) next
        → HasFilled studio (E.events source.now) (record { mixer = mixer.new; cursors = cursors.new }) next
        (length cursors.old) }
    ensures packer { mixer.new.packer ≡ mixer.old.packer }
    ensures streams { length mixer.new.lanes ≡ length mixer.old.lanes }
{
    // The loop goes by index, since a proof knows nothing of the elements after `iter_mut().enumerate()`.
    for stream in 0..cursors.len() {
        pull(mixer, stream, &mut cursors[stream], source, buffer);
    }
}
