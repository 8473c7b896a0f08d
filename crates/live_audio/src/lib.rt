//! The audio of a live run: a WAV file and raw PCM of the mix, which threads of their own write while the run goes on.
//!
//! 1. `WavOutput` is the WAV file as an output of a run. It makes an `AudioChannel`, the two ends of a
//!    ring, whose space follows from the studio: what its streams hold back at their latency, and thirty
//!    seconds more.
//! 2. The run passes each datagram of the mix to the `AudioProducer`, which puts its samples into the ring
//!    and never waits: a block for which the ring has no space ends the file there.
//! 3. `write_audio`, in another thread, writes the samples to the file as they come, in order, from the
//!    first block on. Each second of audio it renews the sizes in the header, so that a file that a
//!    power failure cuts plays to its last second.
//! 4. With `AudioParts` the audio goes to one file after another, each with the same number of whole
//!    blocks. Each has a `bext` chunk with the time of its first sample, and no block is left out or
//!    written twice between two of them.
//! 5. The last file ends with a whole block, whatever ended it.
//!
//! Raw PCM, a `RawPcmOutput`, goes the same way to a `PcmOutput`, by the ends of a `PcmChannel` and
//! `write_pcm`. Its ring holds two seconds more than the latency. Its reader may be slow: a block for which the
//! ring has no space is left out as a whole and counted, and the blocks behind it go on.
//!
//! The ends set the `OutputProgress` of their output, which other threads read.
//!
//! Only `AudioChannel::new` and `PcmChannel::new` allocate.
#![tactic(auto)]

mod channel;
mod parts;
mod pcm_channel;
mod pcm_output;
mod pcm_producer;
mod pcm_writer;
mod producer;
mod renewal;
mod ring_size;
mod wav_output;
mod writer;

pub use channel::AudioChannel;
pub use parts::AudioParts;
pub use pcm_output::{PcmTask, RawPcmOutput};
pub use pcm_producer::PcmProducer;
pub use pcm_writer::{PcmStop, PcmWriter, PcmWritten, write_pcm};
pub use producer::AudioProducer;
pub use wav_output::{WavOutput, WavTask};
pub use writer::{AudioFile, AudioWriter, write_audio};
