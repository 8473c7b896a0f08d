//! Asks the source of gains for requests, and has the mixer's end answer them.
ghost use Rattle.std.specs.Prelude.{◌≡◌, ◌≤◌, ◌*◌, length};
ghost use Rattle.gain_mix.specs.Changes.{matrix_at};
ghost use Rattle.gain_mix.specs.Gain.{ins_of};
ghost use Rattle.studio_mix.specs.Mixer.{next_start_of};
ghost use Rattle.studio_rings.specs.GainRequests.{TakesChanges};

use studio_ends::MixEnd;
use studio_io::{GainSource, MAX_REQUESTS};

/// Returns the number of gains of a mixer's matrix.
fn gain_count(end: &MixEnd) -> usize
    ensures value { let rows = matrix_at end.now.mixer.schedule (next_start_of end.now.mixer) in
        result ≡ length rows * ins_of rows }
    ensures few { result ≤ 8192 }
{
    let in_force = end.gains(end.next_block_start());
    in_force.outs() * in_force.ins()
}

/// Asks the source for one request, and answers it. Returns false if there was none.
fn ask_once<G: GainSource>(end: &mut MixEnd, source: &mut G, buffer: &mut [i32]) -> bool
    requires space { length buffer.old ≡ 8192 }
    ensures { TakesChanges end.old end.new (G.taken source.old) (G.taken source.new) }
{
    let count = gain_count(end);
    let gains = &mut buffer[..count];
    let Some(request) = source.next(gains) else {
        return false;
    };
    let next = end.next_block_start();
    let answer = end.answer_request(request, gains);
    source.answer(answer, next, gains);
    true
}

/// Asks the source for requests until it has none, but for at most 64, and answers each.
pub(crate) fn ask_source<G: GainSource>(end: &mut MixEnd, source: &mut G, buffer: &mut [i32])
    requires space { length buffer.old ≡ 8192 }
    ensures { TakesChanges end.old end.new (G.taken source.old) (G.taken source.new) }
{
    for _ in 0..MAX_REQUESTS {
        if !ask_once(end, source, buffer) {
            return;
        }
    }
}
