//! The token that a change of gains needs.
ghost use Rattle.std.specs.Prelude.{◌≡◌, IfNone, IfSome, bytes_eq, false, true};
ghost use Rattle.std.specs.Char.{is_ascii_graphic};
ghost use Rattle.std.specs.List.{list_all};
ghost use Rattle.status_page.specs.Token.{is_token, without_line_feed};

use arrayvec::ArrayVec;
use std::marker::Model;

/// The least number of octets of a token.
// 16 random octets cannot be guessed. Fewer may be a word that somebody chose.
const MIN_OCTETS: usize = 16;

/// The greatest number of octets of a token.
const MAX_OCTETS: usize = 256;

/// A token: 16 to 256 octets of visible ASCII.
#[derive(Drop)]
pub struct Token {
    octets: ArrayVec<u8, MAX_OCTETS>,
}

impl Model for Token {
    ghost use Rattle.std.specs.Prelude.{ℕ, List};

    ghost Value = { List ℕ };

    ghost view = { λ token. token.octets.items };
}

impl Token {
    /// Returns the token in the contents of a file: all octets but one line feed at the end. Returns `None` if these
    /// are fewer than 16 or more than 256, or if one of them is not visible ASCII.
    // A client sends the token in a header field, which can carry no other octets than these.
    pub fn from_bytes(octets: &[u8]) -> Option<Token>
        ensures token { IfSome result (λ token. token ≡ without_line_feed octets.now) }
        ensures fine { IfSome result (λ _. is_token (without_line_feed octets.now) ≡ true) }
        ensures refused { IfNone result (is_token (without_line_feed octets.now) ≡ false) }
    {
        let octets = without_line_feed(octets);
        if !is_token(octets) {
            return None;
        }
        let mut token = ArrayVec::new();
        token.try_extend_from_slice(octets).ok()?;
        Some(Token { octets: token })
    }

    /// Returns true if these octets are the token.
    pub(crate) fn is(&self, given: &[u8]) -> bool
        ensures { result ≡ bytes_eq given.now self.now }
    {
        is_same(given, self.octets.as_slice())
    }
}

/// Returns true if the octets of two lists are the same.
// It compares all octets, wherever the first difference is. So the time of a response does not show how many of the
// first octets of a guess are right.
fn is_same(given: &[u8], token: &[u8]) -> bool
    ensures { result ≡ bytes_eq given.now token.now }
{
    if given.len() != token.len() {
        return false;
    }
    let mut same = true;
    for place in 0..token.len() {
        same &= given[place] == token[place];
    }
    same
}

/// Returns true if these octets can be a token.
fn is_token(octets: &[u8]) -> bool
    ensures { result ≡ is_token octets.now }
{
    MIN_OCTETS <= octets.len() && octets.len() <= MAX_OCTETS && are_visible(octets)
}

/// Returns true if all these octets are visible ASCII.
fn are_visible(octets: &[u8]) -> bool
    ensures { result ≡ list_all is_ascii_graphic octets.now }
{
    octets.iter().all(|octet| octet.is_ascii_graphic())
}

/// Returns these octets without a line feed at their end.
fn without_line_feed(octets: &[u8]) -> &[u8]
    ensures { result.now ≡ without_line_feed octets.now }
{
    match octets {
        [front @ .., b'\n'] => front,
        _ => octets,
    }
}
