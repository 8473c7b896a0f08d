//! The last step of a run: passes the streams' tokens to the mixer's end and tests if it is settled.
ghost use Rattle.std.specs.Prelude.{◌≡◌, ◌↔◌, ℕ, List, IsTrue, true};
ghost use Rattle.studio_config.specs.Studio.{Studio};
ghost use Rattle.studio_mix.specs.Feed.{Feed};
ghost use Rattle.studio_mix.specs.Blocks.{AreBlocks};
ghost use Rattle.studio_ends.specs.Datagrams.{AreAllGiven};
ghost use Rattle.studio_rings.specs.StreamTokens.{AllGiveTokens, AreAllDrained, AreTokensOf, AreTold, HaveTokens};

use studio_ends::{MixEnd, StreamDone};

/// Passes the token of each stream that has one to the mixer's end.
fn hand_in_all(end: &mut MixEnd, dones: Vec<Option<StreamDone>>)
    requires { AreTokensOf dones.items end.old.sides.items }
    ensures sides { HaveTokens dones.items end.old.sides.items end.new.sides.items }
    ensures mixer { end.new.mixer ≡ end.old.mixer }
{
    let mut stream = 0usize;
    for done in dones {
        if let Some(done) = done {
            end.stream_done(stream, done);
        }
        stream += 1;
    }
}

/// Returns true if all streams have finished and the mixer's end took all their marks.
///
/// `dones` has an entry for each stream, in order; `None` for a stream that returned no token.
pub fn is_settled_with(end: MixEnd, dones: Vec<Option<StreamDone>>) -> bool
    requires { AreTokensOf dones.items end.sides.items }
    ensures exactly { IsTrue result ↔ AreAllDrained dones.items end.sides.items }
    ensures tokens { result ≡ true → AllGiveTokens dones.items }
    ensures blocks { result ≡ true → (studio : Studio) (feeds : List Feed) (datagrams : List (List ℕ))
        → AreTold studio dones.items feeds
        → AreAllGiven studio end datagrams → AreBlocks studio feeds datagrams }
{
    let mut end = end;
    hand_in_all(&mut end, dones);
    end.settled()
}
