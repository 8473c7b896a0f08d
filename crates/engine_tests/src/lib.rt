//! Tests of a studio without threads: worked cases over the public calls from `gain_mix` to
//! `studio_run`.
//!
//! `worker_tests` uses the small studios and packets of this crate too.
#![tactic(auto)]

pub mod small_packets;
pub mod small_studios;
#[cfg(test)]
mod tests;
