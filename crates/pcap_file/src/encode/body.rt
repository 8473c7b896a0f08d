//! The body of a block in front of a datagram, put together piece by piece.
ghost use Rattle.std.specs.Prelude.{◌≡◌, ◌+◌, ◌*◌, ◌%◌, ◌≤◌, ◌++◌, length};
ghost use Rattle.arrayvec.specs.ArrayVec.{array_vec_len};
ghost use Rattle.pcap_file.specs.Blocks.{option_octets, datagram_head, interface_text, time_octets};
ghost use Rattle.pcap_file.specs.Mark.{opening_text};
ghost use Rattle.pcap_file.specs.RecordedDatagram.{arrival_view};
ghost use Rattle.pcap_file.specs.Blocks as spec;

use crate::block_type::BYTE_ORDER_MAGIC;
use crate::encode::datagram::RecordedDatagram;
use crate::encode::ip_header::{push_ipv4, push_udp};
use arrayvec::ArrayVec;
use itoa::Buffer;

/// The octets of a block's body, without a datagram's.
// An interface has the longest: 8 octets of fields, a name of up to 12, 8 of the resolution, a description of up to 68,
// 4 of the end.
pub(crate) type BlockBody = ArrayVec<u8, 128>;

/// The name of an interface. It has at most 7 octets.
pub type InterfaceName = BlockBody;

/// Appends octets.
pub(crate) fn push(head: &mut BlockBody, octets: &[u8])
    requires { array_vec_len head.old + length octets.now ≤ 128 }
    ensures items { head.new.items ≡ head.old.items ++ octets.now }
    ensures length { array_vec_len head.new ≡ array_vec_len head.old + length octets.now }
{
    // The clause above requires the space.
    let Ok(()) = head.try_extend_from_slice(octets) else {
        unreachable!()
    };
}

/// Appends an option: its code, its length, its value, and zeros up to whole words of 4 octets.
#[tactic(auto, unfolding(crate::specs::Blocks::option_octets, crate::specs::Blocks::padded))]
pub(crate) fn push_option(head: &mut BlockBody, code: u16, value: &[u8])
    requires few { length value.now ≤ 64 }
    requires space { array_vec_len head.old + (4 + length value.now + 3 * length value.now % 4) ≤ 128 }
    ensures items { head.new.items ≡ head.old.items ++ option_octets code value.now }
    ensures length { array_vec_len head.new
        ≡ array_vec_len head.old + (4 + length value.now + 3 * length value.now % 4) }
{
    push(head, &code.to_le_bytes());
    push(head, &(value.len() as u16).to_le_bytes());
    push(head, value);
    // 3 n and -n are the same modulo 4: the octets that are missing to whole words of 4.
    push(head, &[0; 3][..3 * value.len() % 4]);
}

/// The link type of IP packets with no header in front of them.
const RAW: u16 = 101;

/// Returns the body of a section header, of version 1.0.
pub(crate) fn section_body(open_at: u64) -> BlockBody
    ensures { result.items ≡ spec.section_body open_at }
{
    let mut head = BlockBody::new();
    push(&mut head, &BYTE_ORDER_MAGIC.to_le_bytes());
    push(&mut head, &1_u16.to_le_bytes());
    push(&mut head, &0_u16.to_le_bytes());
    // All ones mean that the section's length isn't known: a live run goes on behind it.
    push(&mut head, &u64::MAX.to_le_bytes());
    push_opening(&mut head, open_at);
    push_option(&mut head, 4, b"darbexum");
    push(&mut head, &0_u32.to_le_bytes());
    head
}

/// Appends the comment with the time of the opening.
fn push_opening(head: &mut BlockBody, open_at: u64)
    requires { array_vec_len head.old + 32 ≤ 128 }
    ensures items { head.new.items ≡ head.old.items ++ option_octets 1 (opening_text open_at) }
    ensures length { array_vec_len head.new ≤ array_vec_len head.old + 32 }
{
    let mut text = BlockBody::new();
    push(&mut text, b"open_at ");
    push(&mut text, Buffer::new().format(open_at).as_bytes());
    push_option(head, 1, text.as_slice());
}

/// Returns the body of an interface's description.
#[tactic(auto, unfolding(crate::specs::Blocks::texts_body))]
pub(crate) fn interface_body(name: &[u8], description: &[u8]) -> BlockBody
    requires short_name { length name.now ≤ 8 }
    requires few { length description.now ≤ 64 }
    ensures items { result.items ≡ spec.texts_body name.now description.now }
    ensures length { array_vec_len result ≤ 128 }
{
    let mut head = BlockBody::new();
    push(&mut head, &RAW.to_le_bytes());
    push(&mut head, &0_u16.to_le_bytes());
    // 0 means that packets are captured whole.
    push(&mut head, &0_u32.to_le_bytes());
    push_option(&mut head, 2, name);
    // The option `if_tsresol`: times are in nanoseconds.
    push_option(&mut head, 9, &[9]);
    push_option(&mut head, 3, description);
    push(&mut head, &0_u32.to_le_bytes());
    head
}

/// Returns the name of the interface of a stream's path, as `0 a`: the stream's number, a space and the path's letter.
pub fn interface_name(stream: u16, letter: u8) -> InterfaceName
    ensures text { result.items ≡ interface_text stream letter }
    ensures few { array_vec_len result ≤ 7 }
{
    let mut text = BlockBody::new();
    push(&mut text, Buffer::new().format(stream).as_bytes());
    push(&mut text, &[b' ', letter]);
    text
}

/// Returns the octets before a datagram in its block: the packet's fields, and the IPv4 and UDP headers.
#[tactic(auto, unfolding(crate::specs::Blocks::datagram_head))]
pub(crate) fn datagram_body(arrival: &RecordedDatagram<'_>) -> BlockBody
    requires { length arrival.now.octets.now ≤ 32784 }
    ensures items { result.items ≡ datagram_head (arrival_view arrival.now) }
    ensures length { array_vec_len result ≡ 48 }
{
    let packet = 28 + arrival.octets.len() as u32;
    let mut head = BlockBody::new();
    push(&mut head, &arrival.interface.to_le_bytes());
    push_time(&mut head, arrival.nanoseconds);
    // The captured length, and the length on the network.
    push(&mut head, &packet.to_le_bytes());
    push(&mut head, &packet.to_le_bytes());
    push_ipv4(&mut head, arrival);
    push_udp(&mut head, arrival);
    head
}

/// Returns the body of the statistics at the close.
#[tactic(auto, unfolding(crate::specs::Blocks::closing_body))]
pub(crate) fn closing_body(nanoseconds: u64) -> BlockBody
    ensures { result.items ≡ spec.closing_body nanoseconds }
{
    let mut head = BlockBody::new();
    // The block needs an interface, and every record has the first one.
    push(&mut head, &0_u32.to_le_bytes());
    push_time(&mut head, nanoseconds);
    head
}

/// Appends a time, its high word of 32 bits first.
fn push_time(head: &mut BlockBody, nanoseconds: u64)
    requires { array_vec_len head.old + 8 ≤ 128 }
    ensures items { head.new.items ≡ head.old.items ++ time_octets nanoseconds }
    ensures length { array_vec_len head.new ≡ array_vec_len head.old + 8 }
{
    push(head, &((nanoseconds >> 32) as u32).to_le_bytes());
    push(head, &((nanoseconds % 0x1_0000_0000) as u32).to_le_bytes());
}
