//! The limits of time and of arrivals.

/// The greatest time, 2^60 sampling instants.
// Numbers and media times then lie within 2^61, as contracts ask, so no sum or difference of them overflows 64 bits.
pub const MAX_TIME: i64 = 1_152_921_504_606_846_976;

/// The greatest number of arrivals that are counted, 2^62.
// An arrival after this many changes nothing, so that counts never wrap.
pub const MAX_ARRIVALS: u64 = 4_611_686_018_427_387_904;
