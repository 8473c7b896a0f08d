//! Comparing payloads.
ghost use Rattle.std.specs.Prelude.{◌≡◌, ◌≤◌, ◌+◌, true, bytes_eq, length, take};

/// The number of octets of a long payload that are compared at a time.
// Six times 64, the octets that the widest vector instructions compare at once: none is left over.
const RUN: usize = 384;

/// Returns true if two payloads that are the same up to a place are the same for a run more.
fn is_same_run(a: &[u8], b: &[u8], from: usize) -> bool
    requires space { from + 384 ≤ length a.now }
    requires other_room { from + 384 ≤ length b.now }
    requires same { bytes_eq (take from a.now) (take from b.now) ≡ true }
    ensures { result ≡ bytes_eq (take (from + 384) a.now) (take (from + 384) b.now) }
{
    let mut same = true;
    // Each octet is looked at, with no branch on the way, so that the compiler can test many at a time.
    for i in 0..RUN {
        same &= a[from + i] == b[from + i];
    }
    same
}

/// Returns true if two payloads that are the same up to a place are the same.
fn is_same_from(a: &[u8], b: &[u8], from: usize) -> bool
    requires place { from ≤ length a.now }
    requires other_place { from ≤ length b.now }
    requires same { bytes_eq (take from a.now) (take from b.now) ≡ true }
    ensures { result ≡ bytes_eq a.now b.now }
{
    &a[from..] == &b[from..]
}

/// Returns true if two long payloads of one length are the same.
#[inline(never)]
fn are_long_same(a: &[u8], b: &[u8]) -> bool
    requires { length a.now ≡ length b.now }
    ensures { result ≡ bytes_eq a.now b.now }
{
    let runs = a.len() / RUN;
    for run in 0..runs {
        if !is_same_run(a, b, RUN * run) {
            return false;
        }
    }
    is_same_from(a, b, RUN * runs)
}

/// Returns true if two payloads are the same.
#[inline(always)]
pub(crate) fn are_same(a: &[u8], b: &[u8]) -> bool
    ensures { result ≡ bytes_eq a.now b.now }
{
    if a.len() < RUN || a.len() != b.len() {
        a == b
    } else {
        are_long_same(a, b)
    }
}
