//! Flows that carry the same packets (SMPTE ST 2022-7): numbers and timestamps of their common packets agree.
ghost use Rattle.std.specs.Prelude.{◌≡◌, position};
ghost use Rattle.std.specs.List.{list_any, zip};
ghost use Rattle.pcap_flows.specs.Flow.{flow_view};
ghost use Rattle.pcap_flows.specs.SamePackets as spec;

use crate::flow::Flow;
use crate::packet::FlowKey;
use crate::received_numbers::Received;

/// Returns true if two flows of one source and payload type have a packet in common, and all common packets agree.
pub(crate) fn carry_same_packets(
    key: &FlowKey,
    flow: &Flow,
    other_key: &FlowKey,
    other: &Flow,
) -> bool
    ensures { result
        ≡ spec.carry_same_packets key.now (flow_view flow.now) other_key.now (flow_view other.now) }
{
    key.ssrc == other_key.ssrc
        && key.pt == other_key.pt
        && agree(flow.numbers().last_seen(), other.numbers().last_seen())
}

/// Returns true if two flows have a packet in common, and by the difference of its numbers none with two timestamps.
fn agree(ones: &[Received], others: &[Received]) -> bool
    ensures { result ≡ spec.agree ones.now others.now }
{
    match first_shared(ones, others) {
        Some((one, other)) => !has_contradiction(ones, others, &one, &other),
        None => false,
    }
}

/// Returns the first packet with the same 16 bits and the same timestamp in both flows, if there is one.
fn first_shared(ones: &[Received], others: &[Received]) -> Option<(Received, Received)>
    ensures { result ≡ spec.first_shared ones.now others.now }
{
    let at = index_shared(ones, others)?;
    pair_at(ones, others, at)
}

/// Returns the packets at a place of both lists, if they are there.
fn pair_at(ones: &[Received], others: &[Received], at: usize) -> Option<(Received, Received)>
    ensures { result ≡ spec.pair_at ones.now others.now at }
{
    match (ones.get(at), others.get(at)) {
        (Some(one), Some(other)) => Some((*one, *other)),
        _ => None,
    }
}

/// Returns the index of the first packet with the same 16 bits and the same timestamp.
fn index_shared(ones: &[Received], others: &[Received]) -> Option<usize>
    ensures { result ≡ position spec.is_shared (zip ones.now others.now) }
{
    ones.iter()
        .zip(others.iter())
        .position(|(one, other)| is_shared(one, other))
}

/// Returns true if by this difference of numbers some common packet has two timestamps.
fn has_contradiction(
    ones: &[Received],
    others: &[Received],
    base: &Received,
    other_base: &Received,
) -> bool
    ensures { result ≡ list_any (spec.contradicts (base.now, other_base.now)) (zip ones.now others.now) }
{
    ones.iter()
        .zip(others.iter())
        .any(|(one, other)| contradicts(base, other_base, one, other))
}

/// Returns true if both packets arrived, with one timestamp.
fn is_shared(one: &Received, other: &Received) -> bool
    ensures { result ≡ spec.is_shared (one.now, other.now) }
{
    one.number != 0 && other.number != 0 && one.ts == other.ts
}

/// Returns true if both packets arrived, with two timestamps, and their numbers differ as those of the base do.
fn contradicts(base: &Received, other_base: &Received, one: &Received, other: &Received) -> bool
    ensures { result ≡ spec.contradicts (base.now, other_base.now) (one.now, other.now) }
{
    one.number != 0
        && other.number != 0
        && u128::from(one.number) + u128::from(other_base.number)
            == u128::from(other.number) + u128::from(base.number)
        && one.ts != other.ts
}
