//! The WAV files of runs: of the mix of a trace, of one stream of it, and of a replay.
//!
//! - `play_to_wav` reads a trace to its end as `studio_run::play` does, creates the file with the
//!   caller's `CreateFile`, and writes the report and the samples of its datagrams. `write_mix_wav`
//!   does the same for events, to a file that exists.
//! - `list_to_wav` writes a listing as `studio_run::list_marks` does, and before it the samples of
//!   one stream, by `write_stream_wav`. `wav_stream` finds the stream.
//! - `StreamWav` writes the samples of one stream while the events of a run arrive one by one, and
//!   `WavObserver` those of the datagrams of a replay. Both are `ReplayObserver`s.
#![tactic(auto)]

mod fault;
mod mix_wav;
mod stream_events;
mod stream_observer;
mod stream_track;
mod stream_wav;
mod wav_observer;

pub use fault::{StreamWavFault, WavRunFault};
pub use mix_wav::{play_to_wav, write_mix_wav};
pub use stream_events::StreamWav;
pub use stream_wav::{list_to_wav, wav_stream, write_stream_wav};
pub use wav_observer::WavObserver;
