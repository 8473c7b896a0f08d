//! The header of a link in front of an IP packet (tcpdump's registry of link-layer header types; IEEE 802.1Q, 9.3).
ghost use Rattle.std.specs.Prelude.{◌≡◌, ◌≤◌, IfSome, length, option_map};
ghost use Rattle.pcap_file.specs.LinkType as spec;

use crate::decode::endian::Endian;

/// The type of a link, which says what header comes before an IP packet.
#[derive(Clone, Copy, Default, PartialEq, Eq)]
pub enum LinkType {
    /// The protocol's family in four octets, in the order of the machine that captured (`NULL`).
    Null,
    /// An Ethernet header, with up to two VLAN tags (`ETHERNET`).
    Ethernet,
    /// Nothing (`RAW` and `IPV4`).
    Raw,
    /// The protocol's family in four octets, the most significant first (`LOOP`).
    Loop,
    /// Linux's header of 16 octets, which ends in the protocol (`LINUX_SLL`).
    LinuxSll,
    /// Linux's header of 20 octets, which begins with the protocol (`LINUX_SLL2`).
    LinuxSll2,
    /// Another header. Frames with it are passed over.
    #[default]
    Other,
}

/// Returns the link type of a number of the registry.
pub(crate) fn link_of(number: u16) -> LinkType
    ensures { result ≡ spec.link_of number }
{
    match number {
        0 => LinkType::Null,
        1 => LinkType::Ethernet,
        101 => LinkType::Raw,
        108 => LinkType::Loop,
        113 => LinkType::LinuxSll,
        228 => LinkType::Raw,
        276 => LinkType::LinuxSll2,
        _ => LinkType::Other,
    }
}

/// Returns the octets of the IPv4 packet in a frame, if its header announces one.
pub(crate) fn ip_octets(link: LinkType, frame: &[u8]) -> Option<&[u8]>
    ensures { option_map (λ octets. octets.now) result ≡ spec.ip_octets link frame.now }
{
    let place = ip_place(link, frame)?;
    Some(&frame[place..])
}

/// Returns the place at which the IPv4 packet of a frame begins, if its header announces one.
#[tactic(auto, unfolding(crate::specs::LinkType::ip_place))]
fn ip_place(link: LinkType, frame: &[u8]) -> Option<usize>
    ensures place { result ≡ spec.ip_place link frame.now }
    ensures within { IfSome result (λ place. place ≤ length frame.now) }
{
    match link {
        // The file's order may be another than that of the machine that captured, so both are tried.
        LinkType::Null => (has_family(Endian::Big, frame)
            || has_family(Endian::Little, frame)).then_some(4),
        LinkType::Ethernet => {
            let place = type_place(frame);
            has_type(frame, place, 0x0800).then_some(place + 2)
        }
        LinkType::Raw => Some(0),
        LinkType::Loop => has_family(Endian::Big, frame).then_some(4),
        LinkType::LinuxSll => has_type(frame, 14, 0x0800).then_some(16),
        LinkType::LinuxSll2 => (frame.len() >= 20 && has_type(frame, 0, 0x0800)).then_some(20),
        LinkType::Other => None,
    }
}

/// Returns the place of an Ethernet frame's type: behind its addresses and up to two tags.
fn type_place(frame: &[u8]) -> usize
    ensures { result ≡ spec.type_place frame.now }
{
    if !has_tag(frame, 12) {
        return 12;
    }
    if has_tag(frame, 16) { 20 } else { 16 }
}

/// Returns true if a VLAN tag (IEEE 802.1Q or 802.1ad) is at a place.
fn has_tag(frame: &[u8], place: usize) -> bool
    requires { place ≤ 16 }
    ensures { result ≡ spec.has_tag frame.now place }
{
    has_type(frame, place, 0x8100) || has_type(frame, place, 0x88a8)
}

/// Returns true if a type of two octets is at a place.
fn has_type(frame: &[u8], place: usize, kind: u16) -> bool
    requires { place ≤ 20 }
    ensures { result ≡ spec.has_type frame.now place kind }
{
    frame.len() >= place + 2 && Endian::Big.read_u16(frame, place) == kind
}

/// Returns true if the frame begins with the address family of IPv4, 2, in a byte order.
fn has_family(order: Endian, frame: &[u8]) -> bool
    ensures { result ≡ spec.has_family order frame.now }
{
    frame.len() >= 4 && order.read_u32(frame, 0) == 2
}
