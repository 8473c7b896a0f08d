//! The lines of a trace.
ghost use Rattle.std.specs.Prelude.{◌≡◌, ◌++◌, ◌≤◌, length, OnOk};
ghost use Rattle.hex.specs.Hex.{encode_lower};
ghost use Rattle.pcap_flows.specs.TraceLines.{arrival_line, close_line, tick_text};

use crate::fault::ImportFault;
use crate::routes::Route;
use std::alloc::AllocError;

/// The greatest length of a datagram in a trace, in octets.
// A line has at most 4,096 octets: a letter, a number of up to two digits, two spaces, and two digits for each octet.
const MAX_DATAGRAM_LEN: usize = 2045;

/// Appends the line of a clock reading, if it is later than the earlier one.
pub(crate) fn push_tick(text: &mut Vec<u8>, earlier: u64, reading: u64) -> Result<(), AllocError>
    ensures { OnOk result (text.new.items ≡ text.old.items ++ tick_text earlier reading) }
{
    if earlier < reading {
        let mut digits = itoa::Buffer::new();
        text.extend_from_slice(b"tick ")?;
        text.extend_from_slice(digits.format(reading).as_bytes())?;
        text.extend_from_slice(b"\n")?;
    }
    Ok(())
}

/// Appends the line of a datagram. Returns `DatagramTooLong` if that line would be too long.
pub(crate) fn push_arrival(
    text: &mut Vec<u8>,
    route: &Route,
    octets: &[u8],
) -> Result<(), ImportFault>
    ensures { OnOk result (text.new.items ≡ text.old.items ++ arrival_line route.now octets.now) }
{
    if octets.len() > MAX_DATAGRAM_LEN {
        return Err(ImportFault::DatagramTooLong);
    }
    push_short(text, route, octets)?;
    Ok(())
}

/// Appends the line of a datagram of at most 2,045 octets.
fn push_short(text: &mut Vec<u8>, route: &Route, octets: &[u8]) -> Result<(), AllocError>
    requires { length octets.now ≤ 2045 }
    ensures { OnOk result (text.new.items ≡ text.old.items ++ arrival_line route.now octets.now) }
{
    let mut digits = itoa::Buffer::new();
    text.push(route.letter)?;
    text.extend_from_slice(b" ")?;
    text.extend_from_slice(digits.format(route.stream).as_bytes())?;
    text.extend_from_slice(b" ")?;
    push_octets(text, octets)?;
    text.extend_from_slice(b"\n")
}

/// Appends octets, each as two hexadecimal digits.
fn push_octets(text: &mut Vec<u8>, octets: &[u8]) -> Result<(), AllocError>
    requires { length octets.now ≤ 2045 }
    ensures { OnOk result (text.new.items ≡ text.old.items ++ encode_lower octets.now) }
{
    let start = text.len();
    text.resize(start + 2 * octets.len(), 0)?;
    // It fails only if the slice has another length than twice the octets'.
    let Ok(()) = hex::encode_to_slice(octets, &mut text[start..]) else {
        unreachable!()
    };
    Ok(())
}

/// Appends the line of the close.
pub(crate) fn push_close(text: &mut Vec<u8>) -> Result<(), AllocError>
    ensures { OnOk result (text.new.items ≡ text.old.items ++ close_line) }
{
    text.extend_from_slice(b"close\n")
}
