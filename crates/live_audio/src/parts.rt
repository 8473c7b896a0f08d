//! The files of a run's audio: how it is divided, and the file that is written.
ghost use Rattle.std.specs.Prelude.{◌≡◌, ◌<◌, ◌^◌, pos, ◌+ℤ◌, ◌≤ℤ◌, ◌<ℤ◌};
ghost use Rattle.live_audio.specs.Parts.{blocks_for, first_sample, IsChunk, plan_of};

use mix_packets::OutSpec;
use studio_config::StudioSpec;
use wav_file::{BextChunk, LiveWav, bext_chunk};

/// The division of a run's audio into files.
#[derive(Clone, Copy, Debug, PartialEq, Eq)]
pub struct AudioParts {
    /// The time of the first sample, in sampling instants since 1970 in UTC.
    pub at: u64,
    /// The number of sampling instants in a file. It is rounded down to whole blocks. A file has at least one.
    pub instants: u64,
}

impl AudioParts {
    /// Returns the division of the audio of a run of this studio into files of this many sampling instants. `opened` is
    /// the time at which the run opens, in sampling instants since 1970 in UTC.
    // The run may open long before the first sample of the mix. A sample before 1970 gets the time 0.
    pub fn new(studio: &StudioSpec, opened: i64, instants: u64) -> AudioParts
        ensures at { pos 0 ≤ℤ first_sample opened studio.now → first_sample opened studio.now ≤ℤ pos (2 ^ 62)
            → pos result.at ≡ first_sample opened studio.now }
        ensures early { first_sample opened studio.now <ℤ pos 0 → result.at ≡ 0 }
        ensures instants { result.instants ≡ instants }
    {
        let delay = studio.output().start() - studio.open_at();
        AudioParts {
            at: time_after(opened, delay),
            instants,
        }
    }
}

/// Returns the time that is `delay` later than another, in sampling instants since 1970. Returns 0 for a time before
/// 1970, and for one that is too late for 64 bits.
fn time_after(time: i64, delay: i64) -> u64
    ensures at { pos 0 ≤ℤ (time +ℤ delay) → (time +ℤ delay) ≤ℤ pos (2 ^ 62) → pos result ≡ time +ℤ delay }
    ensures early { (time +ℤ delay) <ℤ pos 0 → result ≡ 0 }
{
    match time.checked_add(delay) {
        Some(later) => { if later < 0 { 0 } else { later.unsigned_abs() } }
        None => 0,
    }
}

/// The division of a run's audio as its writer follows it.
#[derive(Clone, Copy, Debug, PartialEq, Eq)]
pub(crate) struct PartPlan {
    /// True if each file has a `bext` chunk with the time of its first sample.
    pub(crate) stamped: bool,
    /// The time of the first sample, in sampling instants since 1970 in UTC.
    pub(crate) at: u64,
    /// The number of sampling instants in a file.
    pub(crate) step: u64,
    /// The number of blocks in a file.
    pub(crate) blocks: u64,
}

/// The file that is written, and its place among the files.
#[derive(Drop)]
pub(crate) struct WavParts {
    pub(crate) wav: LiveWav,
    /// The time of the file's first sample, in sampling instants since 1970 in UTC.
    pub(crate) at: u64,
    /// The number of blocks that fit in the file.
    pub(crate) left: u64,
    /// The number of octets of data that the sizes in the header count.
    pub(crate) sized: u64,
}

/// Returns the division of an output's audio. Without parts it is one file, with no chunk.
pub(crate) fn plan_of(output: &OutSpec, parts: Option<AudioParts>) -> PartPlan
    ensures value { result ≡ plan_of output.now parts }
    ensures some { 0 < result.blocks }
{
    match parts {
        // More blocks than a file can have.
        None => PartPlan {
            stamped: false,
            at: 0,
            step: 0,
            blocks: u64::MAX,
        },
        Some(parts) => {
            let blocks = blocks_for(output, parts.instants);
            PartPlan {
                stamped: true,
                at: parts.at,
                step: blocks.saturating_mul(u64::from(output.frames())),
                blocks,
            }
        }
    }
}

/// Returns the number of whole blocks in this many sampling instants, and at least 1.
fn blocks_for(output: &OutSpec, instants: u64) -> u64
    ensures value { result ≡ blocks_for output.now instants }
    ensures some { 0 < result }
{
    // A block has sampling instants.
    instants
        .checked_div(u64::from(output.frames()))
        .unwrap_or(0)
        .max(1)
}

/// Returns the chunk of a file whose first sample is of this time, or no octet if files have no chunk.
pub(crate) fn chunk_of(plan: PartPlan, at: u64) -> BextChunk
    ensures { IsChunk plan.stamped at result.items }
{
    if plan.stamped {
        bext_chunk(at)
    } else {
        BextChunk::new()
    }
}
