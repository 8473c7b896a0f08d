//! A window with a slot for each of its numbers. `slot` holds one slot.
ghost use Rattle.std.specs.Prelude.{◌≡◌, ◌<◌, ◌^◌, length, IfOk};
ghost use Rattle.std.specs.FinMap as map;
ghost use Rattle.path_merge.specs.SlotWindow.{packets_in, place_at};
ghost use Rattle.path_merge.specs.Window.{IsEmpty};

use crate::slot_window::slot::Slot;
use crate::window::Window;
use rtp_stream::{Packet, PacketRef, Put, StreamSpec};
use std::alloc::{AllocError, Global};
use std::marker::Model;

mod slot;

/// A window with as many slots as it is wide: the slot of a number is its remainder by that width. A slot holds a
/// packet and no number. No call takes longer the more is held, and none except `new` takes memory.
#[derive(Drop)]
pub struct SlotWindow {
    base: u64,
    /// The distance from the base to the end.
    span: usize,
    /// The slot of the base.
    front: usize,
    slots: Vec<Slot>,
}

impl Model for SlotWindow {
    ghost use Rattle.path_merge.specs.SlotWindow.{SlotRing, IsRing};

    ghost Value = { SlotRing };

    ghost view = { λ w. record { base = w.base; front = w.front; span = w.span; slots = w.slots.items } };

    ghost invariant = { λ w. IsRing (view w) };
}

impl SlotWindow {
    /// Returns an empty window as wide as a stream's, or an error if the allocation of its slots fails.
    pub fn new(alloc: Global, spec: &StreamSpec) -> Result<Self, AllocError>
        ensures empty { IfOk result (λ w. IsEmpty (map.from_entries (packets_in w))) }
        ensures size { IfOk result (λ w. length w.slots ≡ spec.now.window) }
        ensures base { IfOk result (λ w. w.base ≡ 0) }
    {
        let width = spec.window();
        let mut slots = Vec::with_capacity(alloc, usize::from(width))?;
        for _ in 0..width {
            slots.push(Slot::new())?;
        }
        Ok(SlotWindow {
            base: 0,
            span: 0,
            front: 0,
            slots,
        })
    }
}

/// Returns the place of the slot that is `distance` after that of the base, in a ring of `size` slots.
fn place_after(front: usize, size: usize, distance: usize) -> usize
    requires front { front < size }
    requires distance { distance < size }
    requires narrow { size < 2 ^ 16 }
    ensures place { result ≡ place_at front size distance }
    ensures inside { result < size }
{
    // Both are below `size`, so a comparison does what a division would.
    if front + distance < size {
        front + distance
    } else {
        front + distance - size
    }
}

impl Window for SlotWindow {
    ghost base = { λ w. w.base };

    ghost size = { λ w. length w.slots };

    ghost held = { λ w. map.from_entries (packets_in w) };

    fn base(&self) -> u64 {
        self.base
    }

    fn end(&self) -> u64 {
        self.base + self.span as u64
    }

    fn begin_at(&mut self, number: u64) {
        self.base = number;
        self.front = (number % self.slots.len() as u64) as usize;
    }

    #[inline(always)]
    fn put_ref(&mut self, number: u64, packet: PacketRef<'_>) -> Put {
        let distance = (number - self.base) as usize;
        let at = place_after(self.front, self.slots.len(), distance);
        let answer = self.slots[at].answer(packet);
        match answer {
            Put::Taken => {
                self.slots[at].write(packet);
                self.span = self.span.max(distance + 1);
            }
            Put::Double => {}
            Put::Unlike => {}
        }
        answer
    }

    #[inline]
    fn front(&self) -> Option<&Packet> {
        self.slots[self.front].packet()
    }

    #[inline]
    fn drop_front(&mut self) {
        self.slots[self.front].free();
        self.front = place_after(self.front, self.slots.len(), 1);
        self.base += 1;
        // If nothing is held, the base passes the end, and the span stays 0.
        self.span = self.span.saturating_sub(1);
    }
}
