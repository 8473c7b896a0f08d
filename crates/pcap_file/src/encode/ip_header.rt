//! The IPv4 and UDP headers of a recorded datagram (RFC 791, 3.1; RFC 768).
ghost use Rattle.std.specs.Prelude.{◌≡◌, ◌+◌, ◌≤◌, ◌++◌, ◌^◌, ◌<◌, length};
ghost use Rattle.std.specs.Net.Addr.{ipv4_octets};
ghost use Rattle.arrayvec.specs.ArrayVec.{array_vec_len};
ghost use Rattle.pcap_file.specs.RecordedDatagram.{arrival_view};
ghost use Rattle.pcap_file.specs.IpHeader.{carried, checksum_of, header_octets, header_with, udp_octets, words_sum};

use crate::encode::body::{BlockBody, push};
use crate::encode::datagram::RecordedDatagram;
use std::net::Ipv4Addr;

/// Appends the IPv4 header of a datagram.
pub(crate) fn push_ipv4(head: &mut BlockBody, arrival: &RecordedDatagram<'_>)
    requires few { length arrival.now.octets.now ≤ 32784 }
    requires space { array_vec_len head.old + 20 ≤ 128 }
    ensures items { head.new.items ≡ head.old.items ++ header_octets (arrival_view arrival.now) }
    ensures length { array_vec_len head.new ≡ array_vec_len head.old + 20 }
{
    let total = 28 + arrival.octets.len() as u16;
    push(head, &[0x45, 0]);
    push(head, &total.to_be_bytes());
    // Identification 0, don't fragment, a time to live of 64, protocol 17 (UDP).
    push(head, &[0, 0, 0x40, 0, 64, 17]);
    push(head, &checksum(total, arrival).to_be_bytes());
    push(head, &arrival.source.octets());
    push(head, &arrival.destination.octets());
}

/// Appends the UDP header of a datagram.
#[tactic(auto, unfolding(crate::specs::IpHeader::udp_octets))]
pub(crate) fn push_udp(head: &mut BlockBody, arrival: &RecordedDatagram<'_>)
    requires few { length arrival.now.octets.now ≤ 32784 }
    requires space { array_vec_len head.old + 8 ≤ 128 }
    ensures items { head.new.items ≡ head.old.items ++ udp_octets (arrival_view arrival.now) }
    ensures length { array_vec_len head.new ≡ array_vec_len head.old + 8 }
{
    push(head, &arrival.source_port.to_be_bytes());
    push(head, &arrival.destination_port.to_be_bytes());
    push(head, &(8 + arrival.octets.len() as u16).to_be_bytes());
    // A checksum of 0 means that there is none (RFC 768).
    push(head, &[0, 0]);
}

/// Returns the checksum of a datagram's IPv4 header (RFC 1071).
fn checksum(total: u16, arrival: &RecordedDatagram<'_>) -> u16
    requires few { length arrival.now.octets.now ≤ 32784 }
    requires total { total ≡ 28 + length arrival.now.octets.now }
    ensures { result ≡ checksum_of (header_with 0 (arrival_view arrival.now)) }
{
    // The fixed words of the header: version and length, don't fragment, time to live and protocol.
    let fixed = 0x4500 + u32::from(total) + 0x4000 + 0x4011;
    let sum = fixed + words_sum(arrival.source) + words_sum(arrival.destination);
    // Twice, since adding the carry may carry once more.
    (65_535 - carried(carried(sum))) as u16
}

/// Returns the sum of an address's two words of 16 bits.
fn words_sum(address: Ipv4Addr) -> u32
    ensures value { result ≡ words_sum (ipv4_octets address) }
    ensures bound { result < 2 ^ 17 }
    ensures four { length (ipv4_octets address) ≡ 4 }
{
    let octets = address.octets();
    let first = u32::from(octets[0]) * 256 + u32::from(octets[1]);
    let second = u32::from(octets[2]) * 256 + u32::from(octets[3]);
    first + second
}

/// Returns the low sixteen bits of a sum with its carry added.
fn carried(sum: u32) -> u32
    requires { sum < 2 ^ 31 }
    ensures { result ≡ carried sum }
{
    sum % 65_536 + sum / 65_536
}
