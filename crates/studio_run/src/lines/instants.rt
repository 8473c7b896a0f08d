//! Sampling instants in a text for people.

/// Returns sampling instants at 48 kHz as whole milliseconds, and the rest in microseconds, rounded down. For example,
/// 100 of them are 2 milliseconds and 83 microseconds.
pub fn millis(instants: u64) -> (u64, u64) {
    // 1,000,000 / 48,000 microseconds for each instant, in lowest terms.
    let micros = instants.saturating_mul(125) / 6;
    (micros / 1000, micros % 1000)
}
