//! The two ends of a run's raw PCM.
ghost use Rattle.std.specs.Prelude.{◌≡◌, ◌≤◌, ℕ, [], Some, slice_get, IfOk};
ghost use Rattle.rtrb.specs.Ring.{IsPair, known_free};
ghost use Rattle.rtp_stream.specs.declared.stream_spec.Stream.{Stream};
ghost use Rattle.wav_file.specs.MixSamples.{output_format};
ghost use Rattle.live_audio.specs.PcmProducer.{HasProduced};
ghost use Rattle.live_audio.specs.PcmWriter.{IsFreshPcm};
ghost use Rattle.live_audio.specs.RingOctets.{pcm_octets_for};

use crate::pcm_producer::PcmProducer;
use crate::pcm_writer::PcmWriter;
use crate::ring_size::{PCM_SPARE, ring_octets};
use crate::writer::format_of;
use rtrb::RingBuffer;
use std::alloc::{AllocError, Global};
use studio_config::StudioSpec;
use studio_io::OutputProgress;

/// The two ends of a run's raw PCM, over one ring.
#[derive(Drop)]
pub struct PcmChannel<'a> {
    /// The end that takes the samples of the mix.
    pub producer: PcmProducer<'a>,
    /// The end that writes them to the output.
    pub writer: PcmWriter<'a>,
}

impl<'a> PcmChannel<'a> {
    /// Returns the two ends of the raw PCM of a run of this studio. Both set their part of `pcm`. Returns `AllocError`
    /// if an allocation fails.
    pub fn new(
        alloc: Global,
        studio: &StudioSpec,
        pcm: &'a OutputProgress,
    ) -> Result<PcmChannel<'a>, AllocError>
        ensures pair { IfOk result (λ channel. IsPair channel.producer.ring channel.writer.ring) }
        ensures none { IfOk result (λ channel. HasProduced [] channel.producer) }
        ensures space { IfOk result (λ channel. (place : ℕ) (stream : Stream)
            → slice_get studio.now.streams place ≡ Some stream
            → pcm_octets_for (output_format studio.now.output) stream.latency ≤ known_free channel.producer.ring) }
        ensures fresh { IfOk result (λ channel. IsFreshPcm studio.now.output channel.writer) }
    {
        let output = studio.output();
        let space = ring_octets(format_of(output), studio.streams(), PCM_SPARE);
        let (producer, consumer) = RingBuffer::new(alloc, space)?;
        Ok(PcmChannel {
            producer: PcmProducer::new(producer, pcm),
            writer: PcmWriter::new(consumer, output, pcm),
        })
    }
}
