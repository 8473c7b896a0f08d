//! The two ends of a run's audio.
ghost use Rattle.std.specs.Prelude.{◌≡◌, ◌≤◌, ℕ, [], None, Some, slice_get, IfOk};
ghost use Rattle.rtrb.specs.Ring.{IsPair, known_free, sent};
ghost use Rattle.rtp_stream.specs.declared.stream_spec.Stream.{Stream};
ghost use Rattle.wav_file.specs.MixSamples.{output_format};
ghost use Rattle.live_audio.specs.AudioWriter.{IsFresh};
ghost use Rattle.live_audio.specs.Parts.{plan_of};
ghost use Rattle.live_audio.specs.RingOctets.{wav_octets_for};

use crate::parts::AudioParts;
use crate::producer::AudioProducer;
use crate::ring_size::{WAV_SPARE, ring_octets};
use crate::writer::{AudioWriter, format_of};
use rtrb::RingBuffer;
use std::alloc::{AllocError, Global};
use studio_config::StudioSpec;
use studio_io::OutputProgress;

/// The two ends of a run's audio, over one ring.
#[derive(Drop)]
pub struct AudioChannel<'a> {
    /// The end that takes the samples of the mix.
    pub producer: AudioProducer<'a>,
    /// The end that writes them to the files.
    pub writer: AudioWriter<'a>,
}

impl<'a> AudioChannel<'a> {
    /// Returns the two ends of the audio of a run of this studio, which is divided into `parts`, or is one file. Both
    /// set their part of `audio`. Returns `AllocError` if an allocation fails.
    pub fn new(
        alloc: Global,
        studio: &StudioSpec,
        parts: Option<AudioParts>,
        audio: &'a OutputProgress,
    ) -> Result<AudioChannel<'a>, AllocError>
        ensures pair { IfOk result (λ channel. IsPair channel.producer.ring channel.writer.ring) }
        ensures open { IfOk result (λ channel. channel.producer.end ≡ None) }
        ensures none { IfOk result (λ channel. sent channel.producer.ring ≡ []) }
        ensures space { IfOk result (λ channel. (place : ℕ) (stream : Stream)
            → slice_get studio.now.streams place ≡ Some stream
            → wav_octets_for (output_format studio.now.output) stream.latency ≤ known_free channel.producer.ring) }
        ensures fresh { IfOk result (λ channel. IsFresh studio.now.output channel.writer) }
        ensures plan { IfOk result (λ channel. channel.writer.plan ≡ plan_of studio.now.output parts) }
    {
        let output = studio.output();
        let space = ring_octets(format_of(output), studio.streams(), WAV_SPARE);
        let (producer, consumer) = RingBuffer::new(alloc, space)?;
        Ok(AudioChannel {
            producer: AudioProducer::new(producer, audio),
            writer: AudioWriter::new(consumer, output, parts, audio),
        })
    }
}
