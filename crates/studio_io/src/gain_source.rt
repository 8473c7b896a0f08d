//! The source of a run's changes of gains: its requests, and the run's answers.
ghost use Rattle.std.specs.Prelude.{◌≡◌, ◌*◌, ◌++◌, List, [], ℤ, Bool, true, false, length, IfSome, OnOk, OnErr};
ghost use Rattle.gain_mix.specs.Gain.{ins_of};
ghost use Rattle.studio_io.specs.Gains.{
  changes_in,
  fits_request,
  gains_in,
  has_places,
  is_change,
  time_of,
  wanted_gains,
  with_one,
};

use gain_mix::{ChangeFault, Matrix};

/// The greatest number of gains of a matrix: 1,024 inputs of 8 output channels.
pub const MAX_GAINS: usize = 8_192;

/// The greatest number of requests that a run answers before it goes on.
// A limit, so that a source that always has another request cannot hold up the feeds, the clock and the sink. It is
// also the number of changes that may be to come at once.
pub const MAX_REQUESTS: u32 = 64;

/// A request of a `GainSource`.
#[derive(Clone, Copy, PartialEq, Eq)]
pub struct GainRequest {
    /// The time that the request is about, in sampling instants of the media clock; `None` is the start of the next
    /// block.
    pub at: Option<i64>,
    /// The change that is asked for, if there is one.
    pub action: GainAction,
}

/// The change that a request asks for. Gains are in units of 1/65,536.
#[derive(Clone, Copy, PartialEq, Eq)]
pub enum GainAction {
    /// From the time on the gains of the buffer are to be in force, row by row, a row for each output channel.
    SetAll,
    /// From the time on the gain from an input to an output is to be this one. The other gains stay those that are in
    /// force at the time.
    SetOne {
        output: usize,
        input: usize,
        gain: i32,
    },
    /// Nothing is to change. The answer shows the gains in force at the time.
    Show,
}

/// The answer to a request.
#[derive(Clone, Copy, PartialEq, Eq, Debug)]
pub enum GainAnswer {
    /// From this time on the gains are in force. They replace every change that was planned from then on.
    Taken(i64),
    /// The request was refused, and nothing changed.
    Refused(ChangeFault),
    /// The gains in force at this time are shown. A request about a time before the next block is answered for the
    /// start of the next block.
    Shown(i64),
}

/// A source of changes of gains. A run asks it for requests, and answers each before it asks for the next one.
///
/// Both calls run in the thread that mixes, so they must not block. A run passes slices of at most 8,192 gains.
pub trait GainSource: Drop {
    /// The changes that were taken so far, in the order of calls: the time from which gains are in force, and the
    /// gains, row by row.
    ghost taken: { Self → List (ℤ × List ℤ) };

    /// True if a request may be without its answer. A source that has no requests need not note what is taken.
    ghost asks: { Self → Bool };

    /// Returns the next request, if there is one. For `GainAction::SetAll` it writes all gains to `gains`, which has a
    /// place for each gain of the matrix.
    fn next(&mut self, gains: &mut [i32]) -> Option<GainRequest>
        ensures asks { IfSome result (λ _. asks self.new ≡ true) }
        ensures taken { taken self.new ≡ taken self.old };

    /// Notes the answer to the last request. `next_block_start` is the first time whose gains could still change when
    /// the answer was made.
    ///
    /// `gains` has the gains that are in force from the time of the answer on, row by row. After `Refused` it has those
    /// at the next block's start.
    fn answer(&mut self, answer: GainAnswer, next_block_start: i64, gains: &[i32])
        ensures taken { asks self.old ≡ true → taken self.new ≡ taken self.old ++ changes_in answer gains.now };
}

/// A source without requests.
#[derive(Clone, Copy)]
pub struct NoGains;

impl GainSource for NoGains {
    ghost taken = { λ source. [] };

    ghost asks = { λ source. false };

    fn next(&mut self, _gains: &mut [i32]) -> Option<GainRequest> {
        None
    }

    fn answer(&mut self, _answer: GainAnswer, _next_block_start: i64, _gains: &[i32]) {}
}

impl GainRequest {
    /// Returns the time that the request is about, if the next block begins at `next_block_start`.
    pub fn time(&self, next_block_start: i64) -> i64
        ensures { result ≡ time_of self.now.at next_block_start }
    {
        match self.at {
            Some(at) => at,
            None => next_block_start,
        }
    }
}

impl GainAction {
    /// Returns true if a change is asked for.
    pub fn is_change(&self) -> bool
        ensures { result ≡ is_change self.now }
    {
        match self {
            GainAction::SetAll => true,
            GainAction::SetOne { .. } => true,
            GainAction::Show => false,
        }
    }

    /// Writes to `gains` the gains that a request asks for, if `in_force` is the matrix in force at its time: all gains
    /// of the buffer, those in force with one replaced, or those in force.
    ///
    /// The only error is `ChangeFault::Shape`, and it changes nothing: the matrix does not have the input or the
    /// output, or the buffer does not have a place for each gain.
    pub fn write_gains(&self, in_force: &Matrix, gains: &mut [i32]) -> Result<(), ChangeFault>
        ensures written { OnOk result (gains.new ≡ wanted_gains self.now in_force.now gains.old) }
        ensures fine { OnOk result (fits_request self.now in_force.now gains.old ≡ true) }
        ensures shape { OnErr result (result ≡ Err ChangeFault.Shape) }
        ensures fault { OnErr result (fits_request self.now in_force.now gains.old ≡ false) }
        ensures kept { OnErr result (gains.new ≡ gains.old) }
    {
        match self {
            GainAction::SetAll => Ok(()),
            GainAction::SetOne {
                output,
                input,
                gain,
            } => write_one(in_force, *output, *input, *gain, gains),
            GainAction::Show => copy_gains(in_force, gains),
        }
    }
}

/// Writes to `gains` the gains of a matrix, with one of them replaced.
fn write_one(
    matrix: &Matrix,
    output: usize,
    input: usize,
    gain: i32,
    gains: &mut [i32],
) -> Result<(), ChangeFault>
    ensures written { OnOk result (gains.new ≡ with_one matrix.now output input gain) }
    ensures fine { OnOk result (fits_request (GainAction.SetOne output input gain) matrix.now gains.old ≡ true) }
    ensures shape { OnErr result (result ≡ Err ChangeFault.Shape) }
    ensures fault { OnErr result (fits_request (GainAction.SetOne output input gain) matrix.now gains.old ≡ false) }
    ensures kept { OnErr result (gains.new ≡ gains.old) }
{
    if output >= matrix.outs() {
        return Err(ChangeFault::Shape);
    }
    if input >= matrix.ins() {
        return Err(ChangeFault::Shape);
    }
    copy_gains(matrix, gains)?;
    gains[output * matrix.ins() + input] = gain;
    Ok(())
}

/// Writes to `gains` the gains of a matrix, row by row.
///
/// The only error is `ChangeFault::Shape`, and it changes nothing: `gains` does not have a place for each of them.
pub fn copy_gains(matrix: &Matrix, gains: &mut [i32]) -> Result<(), ChangeFault>
    ensures written { OnOk result (gains.new ≡ gains_in matrix.now) }
    ensures len { OnOk result (length gains.new ≡ length matrix.now * ins_of matrix.now) }
    ensures fine { OnOk result (has_places matrix.now gains.old ≡ true) }
    ensures shape { OnErr result (result ≡ Err ChangeFault.Shape) }
    ensures fault { OnErr result (has_places matrix.now gains.old ≡ false) }
    ensures kept { OnErr result (gains.new ≡ gains.old) }
{
    let all = matrix.gains();
    if gains.len() != all.len() {
        return Err(ChangeFault::Shape);
    }
    gains.copy_from_slice(all);
    Ok(())
}
