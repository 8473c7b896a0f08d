//! Interfaces of a section, and the times of their packets (pcapng, Interface Description Block).
ghost use Rattle.std.specs.Prelude.{◌≡◌, ◌<◌, ◌≤◌, ◌*◌, ◌/◌, ◌^◌, length, MatchOption};
ghost use Rattle.pcap_file.specs.Interface as spec;

use crate::decode::endian::Endian;
use crate::decode::link::{LinkType, link_of};
use crate::decode::options::option_at;
use crate::fault::CaptureFaultKind;

/// The code of the option `if_tsresol`.
const TIME_RESOLUTION: u16 = 9;

/// The code of the option `if_tsoffset`.
const TIME_OFFSET: u16 = 14;

/// The description of an interface.
#[derive(Clone, Copy, Default, PartialEq, Eq)]
pub(crate) struct Interface {
    /// The header in front of each IP packet.
    pub link: LinkType,
    /// The greatest number of octets that are captured of a packet; 0 if there is no limit.
    pub limit: u32,
    /// The option `if_tsresol`: a second has 10^n units for n below 128, else 2^(n - 128).
    pub resolution: u8,
    /// The option `if_tsoffset`: the seconds after 1970 at which times begin.
    pub offset: i64,
}

/// Returns the interface that a block describes.
#[tactic(auto, unfolding(crate::specs::Interface::interface_of))]
pub(crate) fn read_interface(order: Endian, block: &[u8]) -> Result<Interface, CaptureFaultKind>
    ensures { result ≡ spec.interface_of order block.now }
{
    // 16 octets up to the options, and the length again at the end.
    if block.len() < 20 {
        return Err(CaptureFaultKind::Length);
    }
    let options = &block[16..block.len() - 4];
    let resolution = read_resolution(order, options)?;
    let offset = read_offset(order, options)?;
    Ok(Interface {
        link: link_of(order.read_u16(block, 8)),
        limit: order.read_u32(block, 12),
        resolution,
        offset,
    })
}

/// Returns the resolution in options, or 6, for microseconds, if they have none.
#[tactic(auto, unfolding(crate::specs::Interface::resolution_of))]
fn read_resolution(order: Endian, options: &[u8]) -> Result<u8, CaptureFaultKind>
    ensures { result ≡ spec.resolution_of order options.now }
{
    match option_at(order, TIME_RESOLUTION, options)? {
        None => Ok(6),
        Some(value) if value.len() == 1 => Ok(value[0]),
        Some(_) => Err(CaptureFaultKind::Options),
    }
}

/// Returns the offset in options, or 0 if they have none.
#[tactic(auto, unfolding(crate::specs::Interface::offset_of))]
fn read_offset(order: Endian, options: &[u8]) -> Result<i64, CaptureFaultKind>
    ensures { result ≡ spec.offset_of order options.now }
{
    match option_at(order, TIME_OFFSET, options)? {
        None => Ok(0),
        Some(value) if value.len() == 8 => Ok(order.read_u64(value, 0).cast_signed()),
        Some(_) => Err(CaptureFaultKind::Options),
    }
}

/// Returns the time of a block in its interface's units, which is written as a high and a low word of 32 bits.
pub(crate) fn time_units(order: Endian, block: &[u8]) -> u64
    requires { 20 ≤ length block.now }
    ensures { result ≡ spec.time_units order block.now }
{
    u64::from(order.read_u32(block, 12)) * 0x1_0000_0000 + u64::from(order.read_u32(block, 16))
}

/// Returns a packet's time in nanoseconds since 1970, if it isn't before 1970 and fits 64 bits.
#[tactic(auto, unfolding(crate::specs::Interface::time_of))]
pub(crate) fn time_of(interface: &Interface, units: u64) -> Option<u64>
    ensures { result ≡ spec.time_of interface.now units }
{
    let since_offset = nanoseconds(interface.resolution, units) as i128;
    let time = since_offset + i128::from(interface.offset) * 1_000_000_000;
    u64::try_from(time).ok()
}

/// Returns the nanoseconds of a number of units, rounded down.
fn nanoseconds(resolution: u8, units: u64) -> u128
    ensures value { result ≡ units * 1_000_000_000 / spec.units_per_second resolution }
    ensures bound { result < 2 ^ 94 }
{
    match units_per_second(resolution) {
        Some(count) => u128::from(units) * 1_000_000_000 / count,
        // A nanosecond then has more units than 64 bits hold.
        None => 0,
    }
}

/// Returns the number of units in a second, if it fits 128 bits.
fn units_per_second(resolution: u8) -> Option<u128>
    ensures { MatchOption result (2 ^ 128 ≤ spec.units_per_second resolution)
        (λ count. count ≡ spec.units_per_second resolution) }
{
    if resolution < 128 {
        10u128.checked_pow(u32::from(resolution))
    } else {
        2u128.checked_pow(u32::from(resolution - 128))
    }
}
