//! Tests of reception: worked cases over the public calls from `rtp_wire` to `lane_align`.
#![tactic(auto)]

#[cfg(test)]
mod tests;
