//! The mixer's end: marks in, datagrams out. `marks_in` takes marks from the rings of the streams.
ghost use Rattle.std.specs.Prelude.{◌≡◌, ◌≤◌, length, take, vec_len, IfSome, MatchOption};
ghost use Rattle.mix_packets.specs.declared.out_spec.Output.{Output};
ghost use Rattle.studio_ends.specs.Stats.{Measures, TellsCounts};

use crate::mix_end::marks_in::take_streams;
use crate::rings::drained::any_stream_open;
use crate::rings::marks::MarkConsumer;
use crate::stream_end::turns::StreamDone;
use gain_mix::{ChangeFault, Matrix};
use rtp_stats::MixStatsSender;
use studio_io::{GainAnswer, GainRequest, Missing, MixedBlock};
use studio_mix::Mixer;

pub(crate) mod marks_in;

/// The mixer's end. It takes the marks of all streams and writes the datagrams of the mix.
#[derive(Drop)]
pub struct MixEnd {
    pub(crate) sides: Vec<MarkConsumer>,
    pub(crate) mixer: Mixer,
    /// The sender of saturated samples and peaks; `None` if the rings were opened without statistics.
    pub(crate) sender: Option<MixStatsSender>,
    ghost count: { vec_len sides ≡ length mixer.lanes },
    ghost few: { vec_len sides ≤ 16 },
    ghost measures: { Measures sender mixer.packer.spec },
}

/// The result of `MixEnd::turn`.
#[derive(Clone, Copy)]
pub struct MixNote {
    /// The number of marks that it took of all streams, at most 64 of each.
    pub taken: u32,
    /// The number of them that were dropped, since they may not follow the marks before.
    pub strange: u32,
    /// The length of the datagram, in octets; `None` if no block was ready.
    pub len: Option<usize>,
}

/// Sends the saturated samples and the peaks, if the mixer has a sender and a datagram of `given` octets was written to
/// the start of `out`.
fn send_stats(
    sender: &mut Option<MixStatsSender>,
    given: Option<usize>,
    saturated: &[u64],
    out: &[u8],
)
    requires space { IfSome given (λ len. len ≤ length out.now) }
    ensures told { MatchOption given (sender.new ≡ sender.old)
        (λ len. TellsCounts saturated.now (take len out.now) sender.old sender.new) }
    ensures measures { (output : Output) → Measures sender.old output → Measures sender.new output }
{
    let Some(len) = given else {
        return;
    };
    if let Some(sender) = sender {
        sender.send(saturated, &out[..len]);
    }
}

impl MixEnd {
    // Imported here, since the struct depends on what its file imports, and some of these name the struct.
    ghost use Rattle.std.specs.Prelude.{
      IfErr,
      OnErr,
      OnOk,
      ◌↔◌,
      ◌<◌,
      ◌+◌,
      ℕ,
      List,
      IsTrue,
      None,
      slice_get,
      Some,
      true,
    };
    ghost use Rattle.std.specs.Prelude.{◌≤ℤ◌};
    ghost use Rattle.gain_mix.specs.Changes.{matrix_at};
    ghost use Rattle.mix_packets.specs.Block.{block_start};
    ghost use Rattle.mix_packets.specs.OutSpec.{datagram_length};
    ghost use Rattle.rtrb.specs.Ring.{all_sent, IsFinishedOf};
    ghost use Rattle.rtp_stream.specs.MarkFacts.{MarkView};
    ghost use Rattle.studio_config.specs.Studio.{Studio};
    ghost use Rattle.studio_mix.specs.Feed.{Feed};
    ghost use Rattle.studio_mix.specs.Blocks.{AreBlocks};
    ghost use Rattle.studio_io.specs.Gains.{AreShown, answer_of, changes_in};
    ghost use Rattle.studio_mix.specs.Changed.{gains_fault_of, with_changes, with_gains};
    ghost use Rattle.studio_mix.specs.Mixer.{next_start_of};
    ghost use Rattle.studio_mix.specs.Missing.{missing_in};
    ghost use Rattle.studio_mix.specs.Output.{block_inputs};
    ghost use Rattle.studio_mix.specs.Saturated.{AreSaturated};
    ghost use Rattle.studio_ends.specs.declared.rings.TokenConsumer.{TokenConsumer};
    ghost use Rattle.studio_ends.specs.AcceptedFeeds.{accepted_feeds, received_total};
    ghost use Rattle.studio_ends.specs.DrainedRings.{AllDrained, AllLookAt};
    ghost use Rattle.studio_ends.specs.MarksIn.{AllTakeSome};
    ghost use Rattle.studio_ends.specs.MixEnds.{MixHasFeeds, MixesBlock};
    ghost use Rattle.studio_ends.specs.Datagrams.{AreAllGiven, AreAllTold, HasGiven, given_after};
    ghost use Rattle.studio_ends.specs.Tokens.{HandsIn};

    /// Returns the number of samples of each output channel that were saturated in the datagrams so far.
    pub fn saturated(&self) -> &[u64]
        ensures value { result.now ≡ self.now.mixer.saturated }
        ensures stands { (studio : Studio) (number : ℕ) → MixHasFeeds studio self.now number
            → AreSaturated studio (accepted_feeds studio.streams self.now.sides.items) number result.now }
    {
        self.mixer.saturated()
    }

    /// Returns the samples of all channels of all streams in the last datagram's block, before any gain: frame by
    /// frame, in each frame stream after stream. Before the first datagram they are 0.
    pub fn inputs(&self) -> &[i32]
        ensures value { result.now ≡ self.now.mixer.inputs }
        ensures stands { (studio : Studio) (number : ℕ) → MixHasFeeds studio self.now (number + 1)
            → result.now ≡ block_inputs studio (accepted_feeds studio.streams self.now.sides.items) number }
    {
        self.mixer.inputs()
    }

    /// Returns what is missing in the last datagram's block: how many of the streams that are used in it have no packet
    /// for some time of it. Before the first datagram nothing is.
    pub fn missing(&self) -> Missing
        ensures value { result ≡ self.now.mixer.missing }
        ensures stands { (studio : Studio) (number : ℕ) → MixHasFeeds studio self.now (number + 1)
            → result ≡ missing_in studio (accepted_feeds studio.streams self.now.sides.items) number }
    {
        self.mixer.missing()
    }

    /// Returns the last datagram's block: its inputs, and what was missing in it.
    pub fn last_block(&self) -> MixedBlock<'_>
        ensures inputs { result.inputs.now ≡ self.now.mixer.inputs }
        ensures missing { result.missing ≡ self.now.mixer.missing }
    {
        self.mixer.last_block()
    }

    /// Returns the length of a datagram, in octets, with its RTP header of 12.
    pub fn datagram_len(&self) -> usize
        ensures value { result ≡ datagram_length self.now.mixer.packer.spec }
        ensures most { result ≤ 1452 }
    {
        self.mixer.output().datagram_len()
    }

    /// Takes the marks that the next block needs, and then writes its datagram to the start of `out` if the block is
    /// ready.
    ///
    /// The caller passes a buffer of `datagram_len` octets, and calls again: one turn takes at most 64 marks of each
    /// stream and writes at most one datagram.
    pub fn turn(&mut self, out: &mut [u8]) -> MixNote
        requires space { datagram_length self.old.mixer.packer.spec ≤ length out.old }
        ensures taken { AllTakeSome self.old.sides.items self.new.sides.items }
        ensures total { received_total self.new.sides.items ≡ received_total self.old.sides.items + result.taken }
        ensures mixes { (studio : Studio) (number : ℕ) → MixHasFeeds studio self.old number
            → MixesBlock studio self.old result self.new number out.old out.new }
        ensures given { (studio : Studio) (datagrams : List (List ℕ)) → HasGiven studio self.old datagrams
            → HasGiven studio self.new (given_after datagrams result.len out.new) }
        ensures all { result.len ≡ None → (studio : Studio) (datagrams : List (List ℕ))
            → HasGiven studio self.old datagrams
            → AreAllGiven studio self.new datagrams }
        ensures none { result.len ≡ None → out.new ≡ out.old }
        ensures told { MatchOption result.len (self.new.sender ≡ self.old.sender)
            (λ len. TellsCounts self.new.mixer.saturated (take len out.new) self.old.sender self.new.sender) }
        ensures spec { self.new.mixer.packer.spec ≡ self.old.mixer.packer.spec }
    {
        let (taken, strange) = take_streams(&mut self.sides, &mut self.mixer);
        let len = self.mixer.next_block(out);
        send_stats(&mut self.sender, len, self.mixer.saturated(), out);
        MixNote {
            taken,
            strange,
            len,
        }
    }

    /// Returns the media time at which the next block begins, in sampling instants: the first time whose gains can
    /// still change.
    pub fn next_block_start(&self) -> i64
        ensures value { result ≡ block_start self.now.mixer.packer.spec self.now.mixer.packer.number }
        ensures stands { (studio : Studio) (number : ℕ) → MixHasFeeds studio self.now number
            → result ≡ block_start studio.output number }
    {
        self.mixer.next_block_start()
    }

    /// Returns the gains in force at a media time that is not before the next block.
    pub fn gains(&self, at: i64) -> &Matrix
        ensures value { result.now ≡ matrix_at self.now.mixer.schedule at }
        ensures stands { (studio : Studio) (number : ℕ) → MixHasFeeds studio self.now number
            → block_start studio.output number ≤ℤ at → result.now ≡ matrix_at studio.schedule at }
    {
        self.mixer.gains(at)
    }

    /// Changes the gains: from `at` on, in sampling instants of the media clock, these are in force. They replace every
    /// change that was planned from then on. They are in units of 1/65,536, row by row, a row for each output channel.
    ///
    /// `at` is not before `next_block_start`, so no datagram that was written changes. Up to 64 changes may be to
    /// come. An error changes nothing.
    pub fn change_gains(&mut self, at: i64, gains: &[i32]) -> Result<(), ChangeFault>
        ensures stands { OnOk result ((studio : Studio) (number : ℕ) → MixHasFeeds studio self.old number
            → MixHasFeeds (with_gains studio at gains.now) self.new number) }
        ensures given { OnOk result ((studio : Studio) (datagrams : List (List ℕ))
            → HasGiven studio self.old datagrams
            → HasGiven (with_gains studio at gains.now) self.new datagrams) }
        ensures fine { OnOk result (gains_fault_of self.old.mixer at gains.now ≡ None) }
        ensures fault { IfErr result (λ fault. gains_fault_of self.old.mixer at gains.now ≡ Some fault) }
        ensures kept { OnErr result (self.new ≡ self.old) }
        ensures sides { self.new.sides ≡ self.old.sides }
        ensures sender { self.new.sender ≡ self.old.sender }
        ensures packer { self.new.mixer.packer ≡ self.old.mixer.packer }
        ensures lanes { self.new.mixer.lanes ≡ self.old.mixer.lanes }
        ensures saturated { self.new.mixer.saturated ≡ self.old.mixer.saturated }
    {
        self.mixer.change_gains(at, gains)
    }

    /// Answers a request for the mixer's gains, and changes them if a change is asked for and can be taken. A request
    /// without a time is about the start of the next block.
    ///
    /// For `GainAction::SetAll`, `gains` has the gains that are asked for, row by row. Afterwards it has those in force
    /// from the time of the answer on. If the request was refused it has those at the next block's start, unless it
    /// does not have a place for each gain.
    pub fn answer_request(&mut self, request: GainRequest, gains: &mut [i32]) -> GainAnswer
        ensures answer { result ≡ answer_of request self.old.mixer.schedule (next_start_of self.old.mixer) gains.old }
        ensures shown { AreShown result request self.old.mixer.schedule (next_start_of self.old.mixer)
            gains.old gains.new }
        ensures given { (studio : Studio) (datagrams : List (List ℕ)) → HasGiven studio self.old datagrams
            → HasGiven (with_changes studio (changes_in result gains.new)) self.new datagrams }
        ensures sides { self.new.sides ≡ self.old.sides }
        ensures sender { self.new.sender ≡ self.old.sender }
    {
        self.mixer.answer_request(request, gains)
    }

    /// Takes the token of a finished stream. The caller passes it to the stream whose end returned it.
    pub fn stream_done(&mut self, stream: usize, done: StreamDone)
        requires stream { stream < vec_len self.old.sides }
        requires token { (side : TokenConsumer MarkView) → slice_get self.old.sides.items stream ≡ Some side
            → IsFinishedOf done.token side.ring }
        ensures sides { HandsIn self.old.sides.items stream (all_sent done.token) self.new.sides.items }
        ensures mixer { self.new.mixer ≡ self.old.mixer }
        ensures sender { self.new.sender ≡ self.old.sender }
        ensures stands { (studio : Studio) (number : ℕ) → MixHasFeeds studio self.old number
            → MixHasFeeds studio self.new number }
        ensures given { (studio : Studio) (datagrams : List (List ℕ)) → HasGiven studio self.old datagrams
            → HasGiven studio self.new datagrams }
    {
        self.sides[stream].hand_in(done.token);
    }

    /// Returns true if every stream has finished and all its marks were taken.
    ///
    /// If the turn before wrote no datagram either, all blocks were written.
    pub fn settled(&mut self) -> bool
        ensures value { IsTrue result ↔ AllDrained self.new.sides.items }
        ensures rings { AllLookAt self.old.sides.items self.new.sides.items }
        ensures mixer { self.new.mixer ≡ self.old.mixer }
        ensures sender { self.new.sender ≡ self.old.sender }
        ensures stands { (studio : Studio) (number : ℕ) → MixHasFeeds studio self.old number
            → MixHasFeeds studio self.new number }
        ensures given { (studio : Studio) (datagrams : List (List ℕ)) → HasGiven studio self.old datagrams
            → HasGiven studio self.new datagrams }
        ensures accepted { result ≡ true → (studio : Studio) (feeds : List Feed) → AreAllTold studio self.new feeds
            → accepted_feeds studio.streams self.new.sides.items ≡ feeds }
        ensures all { result ≡ true → (studio : Studio) (feeds : List Feed) (datagrams : List (List ℕ))
            → AreAllTold studio self.new feeds
            → AreAllGiven studio self.old datagrams → AreBlocks studio feeds datagrams }
    {
        // A studio has at most 16 streams.
        let mut open_yet = [false; 16];
        !any_stream_open(&mut self.sides, &mut open_yet)
    }
}
