//! Extended sequence numbers (RFC 3550, A.1).
ghost use Rattle.std.specs.Prelude.{◌≡◌, IfOk, vec_len};
ghost use Rattle.pcap_flows.specs.ReceivedNumbers as spec;

use crate::received_numbers::Received;
use std::alloc::{AllocError, Global};

/// The number of sequence numbers in a cycle, 2^16.
pub(crate) const CYCLE: usize = 65_536;

/// Returns the extended number of a first packet, which has two cycles before it.
// The numbers of packets that were sent before the first one then stay above 0, which means none.
pub(crate) fn first_number(seq: u16) -> u64
    ensures { result ≡ spec.first_number seq }
{
    131_072 + u64::from(seq)
}

/// Returns the extended number nearest to the greatest so far whose low 16 bits are `seq`.
#[tactic(auto, unfolding(crate::specs::ReceivedNumbers::number_near))]
pub(crate) fn number_near(greatest: u64, seq: u16) -> u64
    ensures { result ≡ spec.number_near greatest seq }
{
    let ahead = (65_536 + u64::from(seq) - greatest % 65_536) % 65_536;
    if ahead < 32_768 {
        greatest.saturating_add(ahead)
    } else {
        greatest.saturating_sub(65_536 - ahead)
    }
}

/// Returns a list of 2^16 numbers 0, each of which means that there was no packet with these 16 bits.
#[tactic(auto, unfolding(crate::specs::ReceivedNumbers::no_numbers))]
pub(crate) fn no_numbers(alloc: Global) -> Result<Vec<Received>, AllocError>
    ensures items { IfOk result (λ last_seen. last_seen.items ≡ spec.no_numbers) }
    ensures len { IfOk result (λ last_seen. vec_len last_seen ≡ 65536) }
{
    let last_seen = Vec::from_elem(alloc, Received { number: 0, ts: 0 }, CYCLE)?;
    Ok(last_seen)
}
