//! Tests of the page of a run: requests, answers and both texts of a snapshot, octet by octet.
#![tactic(auto)]

#[cfg(test)]
mod tests;
