//! A first call: two packets of one stream over two paths, merged into marks.
ghost use Rattle.std.specs.Prelude.{◌≡◌};

use anyhow::bail;
use path_merge::{Merge, Path, SlotWindow, StreamClock, StreamSpec};
use rtp_wire::{Enc, read};
use std::alloc::Global;

/// Returns a stream of mono L24, in packets of 6 sampling instants (125 us). Each slot is due 12 instants after its
/// media time.
pub(crate) fn stream() -> anyhow::Result<StreamSpec> {
    let clock = StreamClock::Media { offset: 0 };
    let spec = StreamSpec::new(Enc::L24, 1, 6, 96, None, clock, 12, 8, 2)?;
    Ok(spec)
}

/// Builds an RTP datagram of six samples: version 2, payload type 96, its number, its timestamp and source 7.
fn datagram(number: u8, timestamp: u8) -> [u8; 30] {
    let mut octets = [0; 30];
    octets[0] = 0x80;
    octets[1] = 96;
    octets[3] = number;
    octets[7] = timestamp;
    octets[11] = 7;
    octets[14] = number;
    octets
}

/// Offers a packet that came in on a path, and prints its fate.
fn receive(
    rt: &impl Print,
    merge: &mut Merge<SlotWindow>,
    spec: &StreamSpec,
    path: u8,
    datagram: &[u8],
) -> anyhow::Result<()>
    requires { merge.old.spec ≡ spec.now }
    ensures { merge.new.spec ≡ merge.old.spec }
{
    let Some(path) = Path::new(path) else {
        bail!("a path is 0 to 3");
    };
    if path.number() >= spec.paths() {
        bail!("a path that the stream lacks");
    }
    let packet = spec.admit(&read(datagram)?)?;
    let fate = merge.offer(path, packet);
    println!(rt; "path {} {fate:?}", path.number())?;
    Ok(())
}

/// Merges two packets, the first of which comes on both paths, and prints each packet's fate and each mark.
pub(crate) fn first_call(rt: &impl Print, alloc: Global) -> anyhow::Result<()> {
    let spec = stream()?;
    let mut merge = Merge::new(alloc, spec, 0)?;
    receive(rt, &mut merge, &spec, 0, &datagram(1, 0))?;
    receive(rt, &mut merge, &spec, 1, &datagram(1, 0))?;
    receive(rt, &mut merge, &spec, 1, &datagram(2, 6))?;
    if let Some(mark) = merge.advance(12)? {
        println!(rt; "{:?}", mark.kind())?;
    }
    merge.close();
    while let Some(mark) = merge.drain() {
        println!(rt; "{:?}", mark.kind())?;
    }
    Ok(())
}
