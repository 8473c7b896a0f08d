//! Extending a number from its low bits (RFC 3550, A.1).
ghost use Rattle.std.specs.Prelude.{◌≡◌, ℤ, pos, ◌≤ℤ◌, neg_ℤ, ◌^◌};
ghost use Rattle.rtp_stream.specs.Nearest.{IsNearest, nearest_number};

/// Returns the number nearest to `r` whose low 16 bits are `s`: from 2^15 below `r` to just below 2^15 above it.
pub fn near16(s: u16, r: i64) -> i64
    requires not_low { neg_ℤ (pos (2 ^ 61)) ≤ℤ r }
    requires not_high { r ≤ℤ pos (2 ^ 61) }
    ensures nearest { IsNearest (2 ^ 15) s r result }
    ensures only { (n : ℤ) → IsNearest (2 ^ 15) s r n → n ≡ result }
    ensures value { result ≡ nearest_number (2 ^ 15) s r }
{
    let least = r - 32_768;
    least + (i64::from(s) - least).rem_euclid(65_536)
}

/// Returns the number nearest to `r` whose low 32 bits are `x`: from 2^31 below `r` to just below 2^31 above it.
pub fn near32(x: u32, r: i64) -> i64
    requires not_low { neg_ℤ (pos (2 ^ 61)) ≤ℤ r }
    requires not_high { r ≤ℤ pos (2 ^ 61) }
    ensures nearest { IsNearest (2 ^ 31) x r result }
    ensures only { (n : ℤ) → IsNearest (2 ^ 31) x r n → n ≡ result }
    ensures value { result ≡ nearest_number (2 ^ 31) x r }
{
    let least = r - 2_147_483_648;
    least + (i64::from(x) - least).rem_euclid(4_294_967_296)
}
