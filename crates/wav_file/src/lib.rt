//! WAV and RF64 files of PCM samples: their header, and the writers of a file that is closed once or written live.
//!
//! - `WavWriter` writes a file whose samples come one after another. `begin` writes the header with space for
//!   the sizes of a file beyond 4 GiB, `push` the samples of a payload, and `finish` the sizes. If `push` fails,
//!   call `finish_partial`: it sets the sizes to those of the whole payloads before.
//! - A live run writes `WavFiles`, one after another, which a `CreateLiveWav` makes, by a `LiveWav`. The
//!   sizes of a file are renewed while it grows, in an order that a power failure can cut anywhere. A
//!   `bext_chunk` says the time of its first sample.
//! - It also writes raw PCM to a `PcmOutput`, which a `CreatePcm` makes, by `to_little_endian`.
//!
//! The caller keeps the file, an `Overwrite`. `SeekFile` makes one of any file that seeks, and a `CreateFile`
//! makes a file when a run needs it. `WavWriter` does not allocate.
#![tactic(auto)]

mod bext;
mod fault;
mod files;
mod header;
mod live_file;
mod live_pcm;
mod live_wav;
mod samples;
mod writer;

pub use bext::{BextChunk, bext_chunk, time_stamp};
pub use fault::FileFault;
pub use files::{CreateFile, Overwrite, SeekFile};
pub use header::WavFormat;
pub use live_file::{CreateLiveWav, LiveWavFault, LiveWavFile, WavFiles};
pub use live_pcm::{CreatePcm, PcmFault, PcmOutput, PcmSpace};
pub use live_wav::LiveWav;
pub use samples::to_little_endian;
pub use writer::{WavFault, WavWriter};
