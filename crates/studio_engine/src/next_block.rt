//! The next datagram, and the marks that its block needs, fed stream by stream.
ghost use Rattle.std.specs.Prelude.{◌≡◌, ℕ, ◌<◌, ◌≤◌, List, length, None, IfSome};
ghost use Rattle.mix_packets.specs.OutSpec.{datagram_length};
ghost use Rattle.studio_config.specs.Studio.{Studio};
ghost use Rattle.studio_mix.specs.LaneCapacity.{capacities_of};
ghost use Rattle.studio_session.specs.Event.{TraceEvent};
ghost use Rattle.studio_session.specs.PushedEvents.{HaveTaken};
ghost use Rattle.studio_session.specs.Play.{HasFilled, HasPlayed, IsRunnableBy};
ghost use Rattle.studio_session.specs.Run.{HasGivenBlocks, blocks_left};
ghost use Rattle.studio_engine.specs.Engine.{AreIdle, HaveCome};
ghost use Rattle.studio_engine.specs.Give.{GivesBlock, HasNoBlock};

use studio_mix::Mixer;
use studio_session::{Cursor, pull_marks};

/// Feeds each stream's marks to the mixer until it wants no more, or all marks of the events so far were fed.
fn fill(mixer: &mut Mixer, cursors: &mut [Cursor])
    requires streams { length cursors.old ≡ length mixer.old.lanes }
    ensures stands { (studio : Studio) (events : List TraceEvent) (next : ℕ) → IsRunnableBy studio events
        → HaveTaken events cursors.old
        → HasPlayed studio events (record { mixer = mixer.old; cursors = cursors.old }) next
        → HasFilled studio events (record { mixer = mixer.new; cursors = cursors.new }) next (length cursors.old) }
    ensures come { (count : ℕ) → HaveCome count cursors.old → HaveCome count cursors.new }
    ensures idle { AreIdle cursors.old → AreIdle cursors.new }
    ensures packer { mixer.new.packer ≡ mixer.old.packer }
    ensures streams { length mixer.new.lanes ≡ length mixer.old.lanes }
    ensures capacities { capacities_of mixer.new.lanes ≡ capacities_of mixer.old.lanes }
{
    // The loop goes by index, since a proof knows nothing of the elements after `iter_mut().enumerate()`.
    for stream in 0..cursors.len() {
        // The next block may be ready either way.
        let _ = pull_marks(mixer, stream, &mut cursors[stream]);
    }
}

/// States what holds of every mixer's output, for the contract below. Nothing is computed here.
fn has_frames(mixer: &Mixer)
    ensures { 0 < mixer.now.packer.spec.frames }
{
    // Only the clauses of this call are wanted: they hold the output's rules.
    let _ = mixer.output().frames();
}

/// Writes the next datagram of the events so far to the start of `out` and returns its length in octets, or `None` if
/// no block is ready.
pub(crate) fn next_datagram(
    mixer: &mut Mixer,
    cursors: &mut [Cursor],
    out: &mut [u8],
) -> Option<usize>
    requires space { datagram_length mixer.old.packer.spec ≤ length out.old }
    requires streams { length cursors.old ≡ length mixer.old.lanes }
    ensures some { IfSome result (λ len. (studio : Studio) (events : List TraceEvent) (datagrams : List (List ℕ))
        → IsRunnableBy studio events → HaveTaken events cursors.old
        → HasGivenBlocks studio events (record { mixer = mixer.old; cursors = cursors.old }) datagrams
        → GivesBlock studio events (record { mixer = mixer.new; cursors = cursors.new }) datagrams
        out.old out.new len) }
    ensures none { result ≡ None → (studio : Studio) (events : List TraceEvent) (datagrams : List (List ℕ))
        → IsRunnableBy studio events → HaveTaken events cursors.old
        → HasGivenBlocks studio events (record { mixer = mixer.old; cursors = cursors.old }) datagrams
        → HasNoBlock studio events (record { mixer = mixer.new; cursors = cursors.new }) datagrams }
    ensures len { IfSome result (λ len. len ≡ datagram_length mixer.old.packer.spec) }
    ensures fewer { IfSome result (λ _. blocks_left mixer.new.packer < blocks_left mixer.old.packer) }
    ensures left { result ≡ None → mixer.new.packer ≡ mixer.old.packer }
    ensures kept { result ≡ None → out.new ≡ out.old }
    ensures come { (count : ℕ) → HaveCome count cursors.old → HaveCome count cursors.new }
    ensures idle { AreIdle cursors.old → AreIdle cursors.new }
    ensures output { mixer.new.packer.spec ≡ mixer.old.packer.spec }
    ensures streams { length mixer.new.lanes ≡ length mixer.old.lanes }
    ensures capacities { capacities_of mixer.new.lanes ≡ capacities_of mixer.old.lanes }
{
    fill(mixer, cursors);
    has_frames(mixer);
    mixer.next_block(out)
}
