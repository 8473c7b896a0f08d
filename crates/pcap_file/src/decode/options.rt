//! The options of a block (pcapng, Options).
ghost use Rattle.std.specs.Prelude.{◌≡◌};
ghost use Rattle.pcap_file.specs.Options as spec;

use crate::decode::endian::Endian;
use crate::fault::CaptureFaultKind;

/// Returns the octets of the first option with a code, if there is one before the options' end. Returns `Options` if an
/// option before that is cut.
#[tactic(auto, unfolding(crate::specs::Options::option_among))]
pub(crate) fn option_at(
    order: Endian,
    code: u16,
    options: &[u8],
) -> Result<Option<&[u8]>, CaptureFaultKind>
    ensures { spec.value_view result ≡ spec.option_of order code options.now }
{
    let mut rest = options;
    while rest.len() >= 4 {
        let kind = order.read_u16(rest, 0);
        let end = 4 + usize::from(order.read_u16(rest, 2));
        // The code 0 is `opt_endofopt`.
        if kind == 0 {
            return Ok(None);
        }
        if rest.len() < end {
            return Err(CaptureFaultKind::Options);
        }
        if kind == code {
            return Ok(Some(&rest[4..end]));
        }
        // The last option may lack its padding.
        let next = 4 * ((end + 3) / 4);
        rest = &rest[next.min(rest.len())..];
    }
    Ok(None)
}
