//! The tracker of a stream, which takes its events and reports its reception to an observer.
ghost use Rattle.std.specs.Prelude.{◌≡◌, ◌+◌, ◌<◌, None, true, length, IfOk};
ghost use Rattle.studio_session.specs.Cursor.{IsSameCursor};
ghost use Rattle.reception_chart.specs.Places.{CountsOne};

use crate::reception::lost_slots::LostSlots;
use crate::reception::{CopyTiming, ReceptionEvent, ReceptionKind, ReceptionObserver};
use rtp_stream::{Fate, MarkKindRef, Path, StreamSpec, is_taken, near32};
use rtp_wire::MAX_ARRIVAL_OCTETS;
use std::alloc::{AllocError, Global};
use studio_config::StudioSpec;
use studio_session::{ArriveOutcome, Cursor, EventHeader, EventSource, OfferedPacket};

/// The timestamp and the media time of a packet, from which the media times of all others of its epoch follow.
// Not `rtp_stats::Deadlines`, which has no deadline for late packets: the chart draws their media times too.
#[derive(Clone, Copy)]
struct GridReference {
    ts: u32,
    media: i64,
}

impl GridReference {
    /// Returns the media time of a packet of the same grid by its timestamp.
    fn media_of(&self, ts: u32) -> i64 {
        // A timestamp has 32 bits and wraps, so the nearest to the reference is meant.
        let from = i64::from(self.ts);
        self.media.saturating_add(near32(ts, from) - from)
    }
}

/// The clock reading and the grid of a stream.
#[derive(Clone, Copy)]
struct StreamGrid {
    /// The last clock reading, or the opening time.
    time: i64,
    /// The packet that was taken last, if there is one.
    reference: Option<GridReference>,
}

/// A stream with its merge, which takes events one by one and reports what becomes of them.
#[derive(Drop)]
pub(crate) struct StreamTracker {
    pub(crate) cursor: Cursor,
    /// The number of events that were taken, including those of other streams.
    place: usize,
    grid: StreamGrid,
    pub(crate) ghost counted: { cursor.place ≡ place },
    pub(crate) ghost settled: { cursor.reading ≡ None },
}

impl StreamTracker {
    /// Returns a stream of a studio before the first event. Returns `AllocError` if an allocation fails.
    pub(crate) fn new(
        alloc: Global,
        spec: &StudioSpec,
        stream: StreamSpec,
        number: u8,
    ) -> Result<StreamTracker, AllocError>
        ensures first { IfOk result (λ tracker. tracker.cursor.place ≡ 0) }
    {
        let cursor = Cursor::new(alloc, stream, number, spec.open_at())?;
        Ok(StreamTracker {
            cursor,
            place: 0,
            grid: StreamGrid {
                time: spec.open_at(),
                reference: None,
            },
        })
    }

    /// Returns the stream.
    pub(crate) fn spec(&self) -> StreamSpec {
        self.cursor.spec()
    }

    /// Takes a datagram that arrived on a path of a stream, and reports the fate of its packet if the stream is this
    /// one.
    pub(crate) fn arrived<O: ReceptionObserver>(
        &mut self,
        stream: usize,
        path: Path,
        octets: &[u8],
        observer: &mut O,
    ) {
        if self.has(stream, path) {
            self.take(path, octets, observer);
        } else {
            self.pass_over();
        }
    }

    /// Takes a clock reading, in sampling instants at 48 kHz, and reports the slots that are lost by then.
    pub(crate) fn read<O: ReceptionObserver>(&mut self, now: i64, observer: &mut O)
        ensures place { CountsOne usize.MAX self.old.cursor.place self.new.cursor.place }
    {
        if self.place == usize::MAX {
            return;
        }
        self.cursor.push_tick(now);
        self.place += 1;
        report_lost(&mut self.cursor, observer);
        self.grid.time = now;
    }

    /// Takes the close, and reports the slots that are lost by then.
    pub(crate) fn closed<O: ReceptionObserver>(&mut self, observer: &mut O)
        ensures place { CountsOne usize.MAX self.old.cursor.place self.new.cursor.place }
    {
        if self.place == usize::MAX {
            return;
        }
        self.cursor.push_close();
        self.place += 1;
        report_lost(&mut self.cursor, observer);
    }

    /// Returns true if the path of a stream is a path of this stream.
    fn has(&self, stream: usize, path: Path) -> bool
        ensures { result ≡ true → path < self.now.cursor.spec.paths }
    {
        stream == usize::from(self.cursor.number()) && path.number() < self.cursor.spec().paths()
    }

    /// Takes a datagram of the stream.
    fn take<O: ReceptionObserver>(&mut self, path: Path, octets: &[u8], observer: &mut O)
        requires path { path < self.old.cursor.spec.paths }
        ensures place { CountsOne usize.MAX self.old.cursor.place self.new.cursor.place }
    {
        if self.place == usize::MAX {
            return;
        }
        take_datagram(&mut self.cursor, path, octets, &mut self.grid, observer);
        self.place += 1;
    }

    /// Counts the event of another stream's datagram.
    fn pass_over(&mut self)
        ensures place { CountsOne usize.MAX self.old.cursor.place self.new.cursor.place }
    {
        if self.place == usize::MAX {
            return;
        }
        self.cursor.skip();
        self.place += 1;
    }
}

/// Takes all events of a source from the first on, and reports the stream's packets and lost slots to an observer.
pub(crate) fn track_stream<E: EventSource, O: ReceptionObserver>(
    tracker: &mut StreamTracker,
    source: &E,
    observer: &mut O,
)
    ensures all { tracker.old.cursor.place ≡ 0 → tracker.new.cursor.place ≡ length (E.events source.now) }
{
    for place in 0..source.count() {
        match source.outline(place) {
            EventHeader::Arrive { stream, path } => {
                if tracker.has(usize::from(stream), path) {
                    let mut buffer = [0; MAX_ARRIVAL_OCTETS];
                    let octets = source.octets(place, &mut buffer);
                    tracker.take(path, octets, observer);
                } else {
                    tracker.pass_over();
                }
            }
            EventHeader::Tick(now) => tracker.read(now, observer),
            EventHeader::Close => tracker.closed(observer),
        }
    }
}

/// Reports the lost slots among the marks that are due, and passes over all of these.
fn report_lost<O: ReceptionObserver>(cursor: &mut Cursor, observer: &mut O)
    ensures kept { IsSameCursor cursor.old cursor.new }
    ensures settled { cursor.new.reading ≡ None }
{
    let frames = cursor.spec().frames();
    // The label names the loop in its proof.
    'marks: loop {
        // While no packet is held, a reading makes any number of slots lost: they are reported at once.
        if let Some(stretch) = cursor.pass_lost() {
            observer.observe_lost(&LostSlots {
                first: stretch.media,
                frames,
                count: stretch.count,
            });
        }
        if let Some(mark) = cursor.mark() {
            if let MarkKindRef::Slot {
                media,
                payload: None,
                ..
            } = mark.kind()
            {
                observer.observe(&ReceptionEvent {
                    time: media,
                    kind: ReceptionKind::Lost,
                    copy: None,
                });
            }
        }
        if !cursor.pass() {
            return;
        }
    }
}

/// Takes a datagram, and reports the fate of its packet.
fn take_datagram<O: ReceptionObserver>(
    cursor: &mut Cursor,
    path: Path,
    octets: &[u8],
    grid: &mut StreamGrid,
    observer: &mut O,
)
    requires settled { cursor.old.reading ≡ None }
    requires place { cursor.old.place < usize.MAX }
    requires path { path < cursor.old.spec.paths }
    ensures place { cursor.new.place ≡ cursor.old.place + 1 }
    ensures settled { cursor.new.reading ≡ None }
{
    let spec = cursor.spec();
    // A stream has a deadline once it has a packet, so this is tested before the datagram is taken.
    let anchored = cursor.next_deadline().is_some();
    if let ArriveOutcome::Offered(packet) = cursor.push_datagram(path, octets) {
        if is_taken(packet.fate) {
            let opens = !anchored || packet.fate == Fate::Restarted;
            let due = cursor.next_deadline();
            grid.reference = Some(reference_after(&spec, grid, opens, due, packet.ts));
        }
        report_packet(&spec, grid, path, packet, observer);
    }
}

/// Returns the reference for a packet that was taken. If it opens an epoch, its slot is the next that is due, so its
/// media time is that deadline less the latency.
fn reference_after(
    spec: &StreamSpec,
    grid: &StreamGrid,
    opens: bool,
    due: Option<i64>,
    ts: u32,
) -> GridReference {
    let opened = match due {
        Some(due) => due.saturating_sub(i64::from(spec.latency())),
        None => grid.time,
    };
    let media = match grid.reference {
        Some(reference) => {
            if opens {
                opened
            } else {
                reference.media_of(ts)
            }
        }
        None => opened,
    };
    GridReference { ts, media }
}

/// Reports a packet by its fate.
fn report_packet<O: ReceptionObserver>(
    spec: &StreamSpec,
    grid: &StreamGrid,
    path: Path,
    packet: OfferedPacket,
    observer: &mut O,
) {
    let OfferedPacket { ts, fate, .. } = packet;
    let kind = match fate {
        Fate::Closed | Fate::CountersFull => return,
        Fate::Taken | Fate::Restarted => ReceptionKind::Taken(path),
        Fate::Double => ReceptionKind::Double,
        Fate::Late => ReceptionKind::Late,
        Fate::Unlike | Fate::WrongSource | Fate::OffGrid | Fate::Ahead => ReceptionKind::Refused,
    };
    // The grid says nothing of the media time of a packet of another source or off the grid.
    let placed = !matches!(fate, Fate::WrongSource | Fate::OffGrid | Fate::Ahead);
    let media = match grid.reference {
        Some(reference) => reference.media_of(ts),
        None => grid.time,
    };
    let margin = media
        .saturating_add(i64::from(spec.latency()))
        .saturating_sub(grid.time);
    observer.observe(&ReceptionEvent {
        time: if placed { media } else { grid.time },
        kind,
        copy: if placed {
            Some(CopyTiming { path, margin })
        } else {
            None
        },
    });
    if fate == Fate::Restarted {
        observer.observe(&ReceptionEvent {
            time: media,
            kind: ReceptionKind::Restart,
            copy: None,
        });
    }
}
