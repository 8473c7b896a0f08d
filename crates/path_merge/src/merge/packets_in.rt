//! The calls of a merge that take packets.
ghost use Rattle.std.specs.Prelude.{◌≡◌, ◌||◌, ℕ, ◌^◌, ◌<◌, List, ℤ, Some, None, Ok, true, false};
ghost use Rattle.rtp_stream.specs.declared.anchor.Anchor.{Anchor};
ghost use Rattle.rtp_stream.specs.declared.event.Event.{Event};
ghost use Rattle.rtp_stream.specs.declared.fate.Fate.TheVariants.{Restarted};
ghost use Rattle.rtp_stream.specs.Anchor.{is_restart_in_reach, media_time_of, restart_media_time};
ghost use Rattle.rtp_stream.specs.PacketRef.{packet_of};
ghost use Rattle.rtp_stream.specs.Counts.{is_counted_fate, is_taken_fate};
ghost use Rattle.rtp_stream.specs.Fate as fate;
ghost use Rattle.rtp_stream.specs.Grid.{of_width};
ghost use Rattle.rtp_stream.specs.Probation.{is_off};
ghost use Rattle.rtp_stream.specs.FollowTrack.{width_by};
ghost use Rattle.rtp_stream.specs.Follow.{is_following};
ghost use Rattle.rtp_stream.specs.declared.stream_spec.Stream.{Stream};

use super::Merge;
use crate::window::Window;
use rtp_stream::{
    Anchor, Fate, MAX_ARRIVALS, Moment, Packet, PacketRef, Path, Probation, StreamClock, Track,
    continues_media_time, fate_of_first, fate_of_put, is_off_place, is_taken, media_of_first,
    media_of_restart, place_of, update_probation, update_track, width_of,
};

/// Returns true if the clock follows its sender, so that each arrival is judged by its path's track.
fn follows_sender(clock: StreamClock) -> bool
    ensures { result ≡ is_following clock }
{
    match clock {
        StreamClock::Follow => true,
        StreamClock::Media { .. } | StreamClock::Arrival => false,
    }
}

/// Returns true if an arrival may open an epoch: it completes a probation, or its sender is astray.
fn is_either(completes: bool, slips: bool) -> bool
    ensures { result ≡ completes || slips }
{
    completes || slips
}

impl<V: Window> Merge<V> {
    ghost use Rattle.rtp_stream.specs.StreamSpec.{Fits};
    ghost use Rattle.path_merge.specs.Merge.{HasHistory};
    ghost use Rattle.path_merge.specs.Window.{IsEmpty};
    ghost use Rattle.path_merge.specs.Steps.{
      IsFirstStep,
      IsHeardStep,
      IsNextStep,
      IsPlaced,
      IsPutStep,
      IsRefusal,
      IsRestartStep,
      Offers,
      epoch_media,
      opening_of,
      opens_epoch,
    };

    /// Takes a packet of the stream's length that came in on one of its paths, and returns its fate.
    pub fn offer(&mut self, path: Path, packet: Packet) -> Fate
        requires path { path < self.old.spec.paths }
        requires fits { Fits self.old.spec packet }
        ensures stands { (stream : Stream) (open_at : ℤ) (events : List Event) (k : ℕ)
            → HasHistory stream open_at self.old events k → Offers stream open_at self.new events k path packet result }
        ensures refused { is_taken_fate result ≡ false → IsRefusal self.old self.new path result }
        ensures unheard { is_counted_fate result ≡ false → self.new ≡ self.old }
        ensures time { self.new.time ≡ self.old.time }
        ensures closed { self.new.closed ≡ self.old.closed }
        ensures spec { self.new.spec ≡ self.old.spec }
    {
        self.offer_ref(path, packet.as_ref())
    }

    /// Takes a borrowed packet of the stream's length that came in on one of its paths, and returns its fate. The
    /// samples are copied once, into the window, if the packet is kept.
    #[inline]
    pub fn offer_ref(&mut self, path: Path, packet: PacketRef<'_>) -> Fate
        requires path { path < self.old.spec.paths }
        requires fits { Fits self.old.spec (packet_of packet) }
        ensures stands { (stream : Stream) (open_at : ℤ) (events : List Event) (k : ℕ)
            → HasHistory stream open_at self.old events k
            → Offers stream open_at self.new events k path (packet_of packet.entry) result }
        ensures refused { is_taken_fate result ≡ false → IsRefusal self.old self.new path result }
        ensures unheard { is_counted_fate result ≡ false → self.new ≡ self.old }
        ensures time { self.new.time ≡ self.old.time }
        ensures closed { self.new.closed ≡ self.old.closed }
        ensures spec { self.new.spec ≡ self.old.spec }
    {
        if self.closed {
            return Fate::Closed;
        }
        if self.counts.arrived == MAX_ARRIVALS {
            return Fate::CountersFull;
        }
        match self.anchor {
            Some(anchor) => self.offer_next(anchor, path, &packet),
            None => {
                // The rare case gets a reference to a copy, so that the frequent one keeps its packet in registers.
                let first = packet;
                self.offer_first(path, &first)
            }
        }
    }

    /// Takes an arrival at an anchored merge.
    #[inline(always)]
    fn offer_next(&mut self, anchor: Anchor, path: Path, packet: &PacketRef<'_>) -> Fate
        requires anchored { self.old.anchor ≡ Some anchor }
        requires open_yet { self.old.closed ≡ false }
        requires space { self.old.counts.arrived < 2 ^ 62 }
        requires fits { Fits self.old.spec (packet_of packet.now) }
        ensures next { opens_epoch self.old anchor path (packet_of packet.now) ≡ false
            → IsNextStep self.old.spec self.old self.new anchor path (packet_of packet.now) result }
        ensures restart { opens_epoch self.old anchor path (packet_of packet.now) ≡ true
            → IsRestartStep self.old.spec self.old self.new anchor path (packet_of packet.now) result }
    {
        if follows_sender(self.spec.clock()) {
            // A copy, for the reason that `offer_ref` has.
            let judged = *packet;
            return self.offer_judged(anchor, path, &judged);
        }
        let next = self.window.base();
        let width = u64::from(self.spec.window());
        match place_of(&self.spec, &anchor, next, self.next_media, width, packet) {
            Ok(number) => self.offer_in_time(anchor, number, path, packet),
            Err(_) => {
                let rare = *packet;
                self.offer_elsewhere(path, &rare)
            }
        }
    }

    /// Takes a packet in time, by a clock that doesn't follow its sender.
    #[inline(always)]
    fn offer_in_time(
        &mut self,
        anchor: Anchor,
        number: u64,
        path: Path,
        packet: &PacketRef<'_>,
    ) -> Fate
        requires anchored { self.old.anchor ≡ Some anchor }
        requires open_yet { self.old.closed ≡ false }
        requires space { self.old.counts.arrived < 2 ^ 62 }
        requires fits { Fits self.old.spec (packet_of packet.now) }
        requires plain { is_following self.old.spec.clock ≡ false }
        requires place { Ok number
            ≡ fate.place_of (of_width self.old.spec self.old.spec.window) anchor self.old.base (packet_of packet.now) }
        ensures { IsNextStep self.old.spec self.old self.new anchor path (packet_of packet.now) result }
    {
        self.note_in_step(path, packet);
        self.put_or_refuse(anchor, Ok(number), path, packet)
    }

    /// Adds a packet that is in step to its path's probation, by a clock that doesn't follow its sender.
    #[inline(always)]
    fn note_in_step(&mut self, path: Path, packet: &PacketRef<'_>)
        ensures { (a : Anchor) → is_following self.old.spec.clock ≡ false
            → is_off self.old.spec a self.old.base (packet_of packet.now) ≡ false
            → IsHeardStep self.old self.new a path (packet_of packet.now) }
    {
        let _ = update_probation(&mut self.probations, path, &self.spec, false, packet);
    }

    /// Takes an arrival at an anchored merge, with the width that the tracks leave.
    // Out of line, so that the arrivals by the other clocks pay one test for it.
    #[inline(never)]
    fn offer_judged(&mut self, anchor: Anchor, path: Path, packet: &PacketRef<'_>) -> Fate
        requires anchored { self.old.anchor ≡ Some anchor }
        requires open_yet { self.old.closed ≡ false }
        requires space { self.old.counts.arrived < 2 ^ 62 }
        requires fits { Fits self.old.spec (packet_of packet.now) }
        ensures next { opens_epoch self.old anchor path (packet_of packet.now) ≡ false
            → IsNextStep self.old.spec self.old self.new anchor path (packet_of packet.now) result }
        ensures restart { opens_epoch self.old anchor path (packet_of packet.now) ≡ true
            → IsRestartStep self.old.spec self.old self.new anchor path (packet_of packet.now) result }
    {
        let next = self.window.base();
        let moment = Moment {
            time: self.time,
            next,
        };
        let width = width_of(&self.spec, &anchor, moment, &self.tracks);
        match place_of(&self.spec, &anchor, next, self.next_media, width, packet) {
            Ok(number) => self.offer_at(anchor, Ok(number), path, packet),
            Err(_) => {
                let rare = *packet;
                self.offer_elsewhere(path, &rare)
            }
        }
    }

    /// Takes an arrival at an anchored merge, whatever its place is.
    // Out of line, since most packets have a place in the window, and the calls before take these themselves.
    #[inline(never)]
    fn offer_elsewhere(&mut self, path: Path, packet: &PacketRef<'_>) -> Fate
        requires open_yet { self.old.closed ≡ false }
        requires space { self.old.counts.arrived < 2 ^ 62 }
        requires fits { Fits self.old.spec (packet_of packet.now) }
        ensures next { (a : Anchor) → self.old.anchor ≡ Some a
            → opens_epoch self.old a path (packet_of packet.now) ≡ false
            → IsNextStep self.old.spec self.old self.new a path (packet_of packet.now) result }
        ensures restart { (a : Anchor) → self.old.anchor ≡ Some a
            → opens_epoch self.old a path (packet_of packet.now) ≡ true
            → IsRestartStep self.old.spec self.old self.new a path (packet_of packet.now) result }
    {
        match self.anchor {
            Some(anchor) => {
                let next = self.window.base();
                let moment = Moment {
                    time: self.time,
                    next,
                };
                let width = width_of(&self.spec, &anchor, moment, &self.tracks);
                let place = place_of(&self.spec, &anchor, next, self.next_media, width, packet);
                self.offer_at(anchor, place, path, packet)
            }
            // The merge is anchored, so this arm is never reached.
            None => Fate::Late,
        }
    }

    /// Takes an arrival at an anchored merge, given its place.
    #[inline(always)]
    fn offer_at(
        &mut self,
        anchor: Anchor,
        place: Result<u64, Fate>,
        path: Path,
        packet: &PacketRef<'_>,
    ) -> Fate
        requires anchored { self.old.anchor ≡ Some anchor }
        requires open_yet { self.old.closed ≡ false }
        requires space { self.old.counts.arrived < 2 ^ 62 }
        requires fits { Fits self.old.spec (packet_of packet.now) }
        requires place { place
            ≡ fate.place_of (of_width self.old.spec
            (width_by self.old.spec anchor self.old.base self.old.time self.old.tracks))
            anchor self.old.base (packet_of packet.now) }
        ensures next { opens_epoch self.old anchor path (packet_of packet.now) ≡ false
            → IsNextStep self.old.spec self.old self.new anchor path (packet_of packet.now) result }
        ensures restart { opens_epoch self.old anchor path (packet_of packet.now) ≡ true
            → IsRestartStep self.old.spec self.old self.new anchor path (packet_of packet.now) result }
    {
        // The proof cites the invariant of the private fields, which it sees only if the body reads a field.
        let _ = &self.spec;
        match self.note_arrival(anchor, &place, path, packet) {
            Some(media) => {
                self.restart(anchor, media, path, packet);
                Fate::Restarted
            }
            None => self.put_or_refuse(anchor, place, path, packet),
        }
    }

    /// Adds a packet to its path's probation and track, and returns the media time of the epoch that it opens, if it
    /// opens one.
    #[inline(always)]
    fn note_arrival(
        &mut self,
        anchor: Anchor,
        place: &Result<u64, Fate>,
        path: Path,
        packet: &PacketRef<'_>,
    ) -> Option<i64>
        requires anchored { self.old.anchor ≡ Some anchor }
        requires open_yet { self.old.closed ≡ false }
        requires place { place.now
            ≡ fate.place_of (of_width self.old.spec
            (width_by self.old.spec anchor self.old.base self.old.time self.old.tracks))
            anchor self.old.base (packet_of packet.now) }
        ensures opening { result ≡ opening_of self.old anchor path (packet_of packet.now) }
        ensures step { IsHeardStep self.old self.new anchor path (packet_of packet.now) }
    {
        let next = self.window.base();
        let off = is_off_place(place);
        let completes = update_probation(&mut self.probations, path, &self.spec, off, packet);
        let slips = update_track(
            &mut self.tracks,
            &self.spec,
            &anchor,
            Moment {
                time: self.time,
                next,
            },
            place,
            path,
            packet,
        );
        if is_either(completes, slips) {
            self.media_of_epoch(packet)
        } else {
            None
        }
    }

    /// Puts a packet at its place, or refuses one that has none; counts it, and returns its fate.
    #[inline(always)]
    fn put_or_refuse(
        &mut self,
        anchor: Anchor,
        place: Result<u64, Fate>,
        path: Path,
        packet: &PacketRef<'_>,
    ) -> Fate
        requires anchored { self.old.anchor ≡ Some anchor }
        requires open_yet { self.old.closed ≡ false }
        requires space { self.old.counts.arrived < 2 ^ 62 }
        requires fits { Fits self.old.spec (packet_of packet.now) }
        requires place { IsPlaced self.old.spec anchor self.old.base (packet_of packet.now) place }
        ensures { (width : ℕ)
            → place ≡ fate.place_of (of_width self.old.spec width) anchor self.old.base (packet_of packet.now)
            → IsPutStep self.old.spec width self.old self.new anchor path (packet_of packet.now) result }
    {
        match place {
            Ok(number) => {
                let fate = fate_of_put(self.window.put_ref(number, *packet));
                self.counts.add_fate(path, fate);
                fate
            }
            Err(fault) => {
                self.counts.add_fate(path, fault);
                fault
            }
        }
    }

    /// Returns the media time of the epoch that a packet may open, if nothing is held and media time doesn't go back.
    fn media_of_epoch(&self, packet: &PacketRef<'_>) -> Option<i64>
        requires open_yet { self.now.closed ≡ false }
        ensures { (a : Anchor) → self.now.anchor ≡ Some a → result ≡ epoch_media self.now a (packet_of packet.now) }
    {
        // An epoch that opened now would lose the packets that are held, which came in time.
        if self.window.base() < self.window.end() {
            return None;
        }
        let due = self.next_media;
        let media = media_of_restart(self.spec.clock(), packet.ts, self.time, due);
        if !continues_media_time(&self.spec, self.time, due, media) {
            return None;
        }
        Some(media)
    }

    /// Begins the next epoch at a packet, while nothing is held.
    // Out of line, since it is rare: once an epoch.
    #[inline(never)]
    fn restart(&mut self, anchor: Anchor, media: i64, path: Path, packet: &PacketRef<'_>)
        requires anchored { self.old.anchor ≡ Some anchor }
        requires open_yet { self.old.closed ≡ false }
        requires space { self.old.counts.arrived < 2 ^ 62 }
        requires fits { Fits self.old.spec (packet_of packet.now) }
        requires few_epochs { anchor.epoch < 2 ^ 62 }
        requires nothing_held { IsEmpty self.old.held }
        requires continues_media_time { is_restart_in_reach self.old.spec self.old.time
            (media_time_of self.old.spec anchor self.old.base) media ≡ true }
        requires media { media ≡ restart_media_time self.old.spec.clock packet.now.ts self.old.time
            (media_time_of self.old.spec anchor self.old.base) }
        ensures { IsRestartStep self.old.spec self.old self.new anchor path (packet_of packet.now) Restarted }
    {
        let next = Anchor::following(anchor.epoch, packet.seq, packet.ts, packet.ssrc, media);
        self.anchor = Some(next);
        self.next_media = media;
        self.window.begin_at(next.number);
        let _ = self.window.put_ref(next.number, *packet);
        self.probations = [Probation::new(); 4];
        self.tracks = [Track::new(); 4];
        self.counts.add_fate(path, Fate::Restarted);
    }

    /// Takes an arrival at a merge without an anchor, and returns its fate.
    // Out of line, since it is rare: most arrivals come after the anchor.
    #[inline(never)]
    fn offer_first(&mut self, path: Path, packet: &PacketRef<'_>) -> Fate
        requires unanchored { self.old.anchor ≡ None }
        requires open_yet { self.old.closed ≡ false }
        requires space { self.old.counts.arrived < 2 ^ 62 }
        requires fits { Fits self.old.spec (packet_of packet.now) }
        ensures step { IsFirstStep self.old.spec self.old self.new path (packet_of packet.now) result }
        ensures seq { packet.now.seq < 2 ^ 16 }
        ensures ts { packet.now.ts < 2 ^ 32 }
    {
        let media = media_of_first(self.spec.clock(), packet.ts, self.time);
        let anchor = Anchor::first(packet.seq, packet.ts, packet.ssrc, media);
        let fate = fate_of_first(&self.spec, self.time, media, packet.ssrc);
        if !is_taken(fate) {
            self.counts.add_fate(path, fate);
            return fate;
        }
        self.anchor = Some(anchor);
        self.next_media = media;
        self.window.begin_at(anchor.number);
        let _ = self.window.put_ref(anchor.number, *packet);
        self.counts.add_fate(path, Fate::Taken);
        Fate::Taken
    }
}
