//! Tests of a studio over rings, by workers and in one thread: worked cases over public calls.
#![tactic(auto)]

#[cfg(test)]
mod tests;
