//! A window that keeps its packets in a list, in the order of their numbers.
ghost use Rattle.std.specs.Prelude.{◌≡◌, ◌+◌, ◌^◌, ◌<◌, ◌≤◌, vec_capacity, IfOk, IfErr};
ghost use Rattle.std.specs.FinMap as map;
ghost use Rattle.path_merge.specs.Window.{IsEmpty};
ghost use Rattle.path_merge.specs.SortedWindow.{IsFoundAt, IsGapAt, starts_with_number};

use crate::window::Window;
use rtp_stream::{Packet, PacketRef, Put, StreamSpec};
use std::alloc::{AllocError, Global};
use std::marker::Model;

/// A window of the packets that are held, the least number first. No call except `new` takes memory.
#[derive(Drop)]
pub struct SortedWindow {
    base: u64,
    size: u16,
    packets: Vec<(u64, Packet)>,
}

impl Model for SortedWindow {
    ghost use Rattle.std.specs.Prelude.{◌+◌, ◌<◌, ◌≤◌, ◌^◌, vec_capacity};
    ghost use Rattle.path_merge.specs.SortedWindow.{SortedPackets, IsWithin};

    ghost Value = { SortedPackets };

    ghost view = { λ w. record { base = w.base; size = w.size; packets = w.packets.items } };

    ghost invariant = { λ w. record {
      within : IsWithin w.base (w.base + w.size) w.packets.items;
      space : w.size ≤ vec_capacity w.packets;
      small : w.base ≤ 2 ^ 62;
      narrow : w.size < 2 ^ 16;
    } };
}

impl SortedWindow {
    /// Returns an empty window with space for the packets of a stream's window, or an error if its allocation fails.
    pub fn new(alloc: Global, spec: &StreamSpec) -> Result<Self, AllocError>
        ensures empty { IfOk result (λ w. IsEmpty (map.from_entries w.packets)) }
        ensures size { IfOk result (λ w. w.size ≡ spec.now.window) }
        ensures base { IfOk result (λ w. w.base ≡ 0) }
    {
        let size = spec.window();
        let packets = Vec::with_capacity(alloc, usize::from(size))?;
        Ok(SortedWindow {
            base: 0,
            size,
            packets,
        })
    }
}

/// Returns the place of the packet with this number, or as an `Err` the place where it would go.
fn place_of(packets: &[(u64, Packet)], number: u64) -> Result<usize, usize>
    ensures found { IfOk result (IsFoundAt packets.now number) }
    ensures absent { IfErr result (IsGapAt packets.now number) }
{
    for (i, entry) in packets.iter().enumerate() {
        if entry.0 == number {
            return Ok(i);
        }
        if entry.0 > number {
            return Err(i);
        }
    }
    Err(packets.len())
}

/// Returns true if the first packet has this number.
fn starts_with(packets: &[(u64, Packet)], number: u64) -> bool
    ensures { result ≡ starts_with_number number packets.now }
{
    match packets {
        [] => false,
        [first, ..] => first.0 == number,
    }
}

impl Window for SortedWindow {
    ghost base = { λ w. w.base };

    ghost size = { λ w. w.size };

    ghost held = { λ w. map.from_entries w.packets };

    fn base(&self) -> u64 {
        self.base
    }

    fn end(&self) -> u64 {
        match self.packets.last() {
            Some(entry) => entry.0 + 1,
            None => self.base,
        }
    }

    fn begin_at(&mut self, number: u64) {
        self.base = number;
    }

    fn put_ref(&mut self, number: u64, packet: PacketRef<'_>) -> Put {
        match place_of(&self.packets, number) {
            Ok(at) => {
                if self.packets[at].1.payload.as_slice() == packet.payload {
                    Put::Double
                } else {
                    Put::Unlike
                }
            }
            Err(at) => {
                // This takes no memory and doesn't fail: `new` allocated a place for each number.
                let _ = self.packets.insert(at, (number, packet.to_packet()));
                Put::Taken
            }
        }
    }

    fn front(&self) -> Option<&Packet> {
        if starts_with(&self.packets, self.base) {
            Some(&self.packets[0].1)
        } else {
            None
        }
    }

    fn drop_front(&mut self) {
        if starts_with(&self.packets, self.base) {
            self.base += 1;
            let _first = self.packets.remove(0);
        } else {
            self.base += 1;
        }
    }
}
