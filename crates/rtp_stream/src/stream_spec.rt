//! The specification of a stream: what is fixed before any packet comes.
ghost use Rattle.std.specs.Prelude.{◌≡◌, ◌≤◌, ◌↔◌, IsTrue, None, Some, OnOk, IfOk, IfErr, length};
ghost use Rattle.rtp_stream.specs.StreamSpecFacts as spec;
ghost use Rattle.rtp_stream.specs.declared.stream_spec.Stream.{Stream};
ghost use Rattle.rtp_stream.specs.StreamSpecFacts.{IsStream, HasNoFault, spec_fault_of, format_of};
ghost use Rattle.rtp_stream.specs.MarkFacts.{payload_length};
ghost use Rattle.rtp_stream.specs.PacketRef.{packet_of};

use crate::mark::PacketFormat;
use crate::packet::{Packet, PacketRef};
use rtp_wire::{Enc, RtpView, is_packet_time};
use std::marker::Model;
use thiserror::Error;

/// The clock that a stream's media times follow.
#[derive(Clone, Copy, Debug, PartialEq, Eq)]
pub enum StreamClock {
    /// The media clock, from which the sender's timestamps are `offset` ahead, modulo 2^32 (AES67).
    Media { offset: u32 },
    /// The receiver's clock reading as an epoch's first packet came, or the end of the slots if that is later: for a
    /// sender that isn't locked to the media clock.
    Arrival,
    /// As `Arrival`, and an epoch also opens for a sender that is astray: its packets come late, or too early, again
    /// and again.
    Follow,
}

/// The reason why a stream is refused: the first of these that holds, in this order.
#[derive(Clone, Copy, Debug, PartialEq, Eq, Error)]
pub enum SpecFault {
    /// The channels are not from 1 to 64.
    #[error("channels are not from 1 to 64")]
    Channels,
    /// The sampling instants per packet are not 6, 12, 16, 48 or 192, or not 6 with more than 8 channels.
    #[error("frames per packet are not allowed")]
    Frames,
    /// The payload type is not a dynamic one, 96 to 127 (RFC 3551).
    #[error("the payload type is not from 96 to 127")]
    PayloadType,
    /// A packet's samples take more than 1,440 octets.
    #[error("a payload would have more than 1440 octets")]
    TooLong,
    /// The window is not a power of two from 8 to 16,384.
    #[error("the window is not a power of two from 8 to 16384")]
    Window,
    /// The latency is 0, or the window spans less than the latency and two packets.
    #[error("the latency is 0 or does not fit the window")]
    Latency,
    /// The paths are not from 1 to 4.
    #[error("paths are not from 1 to 4")]
    Paths,
}

/// The reason why a packet isn't the stream's: the first of these that holds, in this order.
#[derive(Clone, Copy, Debug, PartialEq, Eq, Error)]
pub enum AdmitFault {
    /// It has another payload type.
    #[error("another payload type")]
    WrongType,
    /// Its payload is shorter or longer than the stream's.
    #[error("another payload length")]
    WrongLength,
}

/// The parts of a stream's specification: its encoding and packets, its source and clock, its latency, window and
/// paths. `StreamSpec::of` looks for faults in them.
#[derive(Clone, Copy, Debug)]
pub struct Stream {
    /// The encoding of each sample.
    pub enc: Enc,
    /// The number of channels.
    pub channels: u8,
    /// Sampling instants per packet.
    pub frames: u16,
    /// The RTP payload type (RFC 3551).
    pub pt: u8,
    /// The synchronization source that each epoch's first packet has to have (RFC 3550, 5.1); `None` takes any.
    pub ssrc: Option<u32>,
    /// The clock that its media times follow.
    pub clock: StreamClock,
    /// The time from a packet's media time to its deadline, in sampling instants (AES67, link offset).
    pub latency: u32,
    /// The number of packets that may be held.
    pub window: u16,
    /// The number of copies of each packet that are sent, each on a path of its own (SMPTE ST 2022-7).
    pub paths: u8,
}

impl Stream {
    /// Returns the layout of the samples in its packets.
    pub fn format(&self) -> PacketFormat
        ensures { result ≡ format_of self.now }
    {
        PacketFormat {
            enc: self.enc,
            channels: self.channels,
            frames: self.frames,
        }
    }
}

/// The specification of a stream, in which there is no fault.
#[derive(Clone, Copy, Debug)]
pub struct StreamSpec {
    stream: Stream,
    /// The number of octets of each packet's samples.
    // Computed once, since the length of each packet is compared with it.
    payload_len: usize,
}

impl Model for StreamSpec {
    ghost use Rattle.rtp_stream.specs.declared.stream_spec.Stream.{Stream};
    ghost use Rattle.std.specs.Prelude.{◌≡◌};
    ghost use Rattle.rtp_stream.specs.MarkFacts.{payload_length};
    ghost use Rattle.rtp_stream.specs.StreamSpecFacts.{HasNoFault, format_of};

    ghost Value = { Stream };

    ghost view = { λ s. s.stream };

    ghost invariant = { λ s. record {
      fine : HasNoFault s.stream;
      len : s.payload_len ≡ payload_length (format_of s.stream);
    } };

    ghost inverse = { λ s. record { stream = s; payload_len = payload_length (format_of s) } };
}

/// Returns true if a reorder window may have this many packets: a power of two from 8 to 16,384.
fn is_window(packets: u16) -> bool
    ensures { result ≡ spec.is_window packets }
{
    // The sizes are listed, as the definition in `specs/StreamSpecFacts` lists them.
    let small = packets == 8 || packets == 16 || packets == 32 || packets == 64;
    let middle = packets == 128 || packets == 256 || packets == 512 || packets == 1024;
    let large = packets == 2048 || packets == 4096 || packets == 8192 || packets == 16384;
    small || middle || large
}

/// Returns the first fault of a stream's packets.
fn check_packets(format: PacketFormat, pt: u8) -> Result<(), SpecFault>
    ensures ok { OnOk result (spec.packets_fault_of format pt ≡ None) }
    ensures fault { IfErr result (λ e. spec.packets_fault_of format pt ≡ Some e) }
{
    if format.channels < 1 || format.channels > 64 {
        return Err(SpecFault::Channels);
    }
    // More than 8 channels are allowed in packets of 6 sampling instants alone (SMPTE ST 2110-30, level C).
    if !is_packet_time(format.frames) || (format.channels > 8 && format.frames != 6) {
        return Err(SpecFault::Frames);
    }
    if pt < 96 || pt > 127 {
        return Err(SpecFault::PayloadType);
    }
    // So a packet fits an Ethernet frame, and its payload an array that takes no memory.
    if format.payload_len() > 1440 {
        return Err(SpecFault::TooLong);
    }
    Ok(())
}

/// Returns the first fault of a stream's window, latency and paths.
fn check_times(frames: u16, latency: u32, window: u16, paths: u8) -> Result<(), SpecFault>
    ensures ok { OnOk result (spec.times_fault_of frames latency window paths ≡ None) }
    ensures fault { IfErr result (λ e. spec.times_fault_of frames latency window paths ≡ Some e) }
{
    // A power of two divides the cycle of sequence numbers.
    if !is_window(window) {
        return Err(SpecFault::Window);
    }
    let held = u64::from(window) * u64::from(frames);
    if latency < 1 || held < u64::from(latency) + 2 * u64::from(frames) {
        return Err(SpecFault::Latency);
    }
    if paths < 1 || paths > 4 {
        return Err(SpecFault::Paths);
    }
    Ok(())
}

impl StreamSpec {
    ghost use Rattle.rtp_stream.specs.StreamSpec.{Fits, admit_fault_of};

    /// Returns the specification of a stream, or the first fault in it.
    pub fn of(stream: Stream) -> Result<StreamSpec, SpecFault>
        ensures ok { IfOk result (λ s. s ≡ stream) }
        ensures fine { IfOk result (λ s. spec_fault_of s ≡ None) }
        ensures fault { IfErr result (λ e. spec_fault_of stream ≡ Some e) }
    {
        check_packets(stream.format(), stream.pt)?;
        check_times(stream.frames, stream.latency, stream.window, stream.paths)?;
        let payload_len = stream.format().payload_len();
        Ok(StreamSpec {
            stream,
            payload_len,
        })
    }

    /// Returns the specification of a stream of these parts, or the first fault in it.
    pub fn new(
        enc: Enc,
        channels: u8,
        frames: u16,
        pt: u8,
        ssrc: Option<u32>,
        clock: StreamClock,
        latency: u32,
        window: u16,
        paths: u8,
    ) -> Result<StreamSpec, SpecFault>
        ensures ok { IfOk result (λ s. s ≡ record { enc = enc; channels = channels; frames = frames; pt = pt; ssrc = ssrc; clock = clock; latency = latency; window = window; paths = paths }) }
        ensures fine { IfOk result (λ s. spec_fault_of s ≡ None) }
        ensures fault { IfErr result (λ e. spec_fault_of (record { enc = enc; channels = channels; frames = frames; pt = pt; ssrc = ssrc; clock = clock; latency = latency; window = window; paths = paths }) ≡ Some e) }
    {
        StreamSpec::of(Stream {
            enc,
            channels,
            frames,
            pt,
            ssrc,
            clock,
            latency,
            window,
            paths,
        })
    }

    /// Returns the layout of the samples in its packets.
    pub fn format(&self) -> PacketFormat
        ensures value { result ≡ format_of self.now }
        ensures sound { IsStream self.now }
    {
        self.stream.format()
    }

    /// Returns the encoding of each sample.
    pub fn enc(&self) -> Enc
        ensures { result ≡ self.now.enc }
    {
        self.stream.enc
    }

    /// Returns the number of channels, 1 to 64.
    pub fn channels(&self) -> u8
        ensures value { result ≡ self.now.channels }
        ensures sound { IsStream self.now }
    {
        self.stream.channels
    }

    /// Returns the number of sampling instants per packet: 6, 12, 16, 48 or 192.
    pub fn frames(&self) -> u16
        ensures value { result ≡ self.now.frames }
        ensures sound { IsStream self.now }
    {
        self.stream.frames
    }

    /// Returns the RTP payload type, 96 to 127 (RFC 3551).
    pub fn pt(&self) -> u8
        ensures value { result ≡ self.now.pt }
        ensures fine { HasNoFault self.now }
    {
        self.stream.pt
    }

    /// Returns the synchronization source that each epoch's first packet has to have (RFC 3550, 5.1); `None` takes
    /// any.
    pub fn ssrc(&self) -> Option<u32>
        ensures { result ≡ self.now.ssrc }
    {
        self.stream.ssrc
    }

    /// Returns the clock that its media times follow.
    pub fn clock(&self) -> StreamClock
        ensures { result ≡ self.now.clock }
    {
        self.stream.clock
    }

    /// Returns the time from a packet's media time to its deadline, in sampling instants (AES67, link offset).
    pub fn latency(&self) -> u32
        ensures value { result ≡ self.now.latency }
        ensures sound { IsStream self.now }
    {
        self.stream.latency
    }

    /// Returns the number of packets that the reorder window spans.
    pub fn window(&self) -> u16
        ensures value { result ≡ self.now.window }
        ensures sound { IsStream self.now }
    {
        self.stream.window
    }

    /// Returns the number of paths that carry it, 1 to 4.
    pub fn paths(&self) -> u8
        ensures value { result ≡ self.now.paths }
        ensures sound { IsStream self.now }
    {
        self.stream.paths
    }

    /// Returns the number of octets of each packet's samples.
    pub fn payload_len(&self) -> usize
        ensures value { result ≡ payload_length (format_of self.now) }
        ensures short { result ≤ 1440 }
    {
        self.payload_len
    }

    /// Returns the stream's packet of an RTP packet, with a copy of the samples, or the first `AdmitFault` if its
    /// payload type or length is another. Takes no memory.
    pub fn admit(&self, view: &RtpView) -> Result<Packet, AdmitFault>
        ensures seq { IfOk result (λ p. p.seq ≡ view.now.seq) }
        ensures ts { IfOk result (λ p. p.ts ≡ view.now.ts) }
        ensures ssrc { IfOk result (λ p. p.ssrc ≡ view.now.ssrc) }
        ensures payload { IfOk result (λ p. p.payload.items ≡ view.now.payload.now) }
        ensures fine { OnOk result (admit_fault_of self.now view.now.pt (length view.now.payload.now) ≡ None) }
        ensures fits { IfOk result (λ p. Fits self.now p) }
        ensures fault { IfErr result (λ e. admit_fault_of self.now view.now.pt (length view.now.payload.now) ≡ Some e) }
    {
        let packet = self.admit_ref(view)?;
        Ok(packet.to_packet())
    }

    /// Returns the stream's packet of an RTP packet, with the samples borrowed from the datagram, or the first
    /// `AdmitFault` if its payload type or length is another.
    #[inline]
    pub fn admit_ref<'a>(&self, view: &RtpView<'a>) -> Result<PacketRef<'a>, AdmitFault>
        ensures seq { IfOk result (λ p. p.seq ≡ view.now.seq) }
        ensures ts { IfOk result (λ p. p.ts ≡ view.now.ts) }
        ensures ssrc { IfOk result (λ p. p.ssrc ≡ view.now.ssrc) }
        ensures payload { IfOk result (λ p. p.payload.now ≡ view.now.payload.now) }
        ensures fine { OnOk result (admit_fault_of self.now view.now.pt (length view.now.payload.now) ≡ None) }
        ensures fits { IfOk result (λ p. Fits self.now (packet_of p)) }
        ensures short { IfOk result (λ p. length p.payload.now ≤ 1440) }
        ensures fault { IfErr result (λ e. admit_fault_of self.now view.now.pt (length view.now.payload.now) ≡ Some e) }
    {
        if view.pt != self.stream.pt {
            return Err(AdmitFault::WrongType);
        }
        if view.payload.len() != self.payload_len() {
            return Err(AdmitFault::WrongLength);
        }
        Ok(PacketRef {
            seq: view.seq,
            ts: view.ts,
            ssrc: view.ssrc,
            payload: view.payload,
        })
    }

    /// Returns true if a packet's payload has the stream's length.
    pub fn fits(&self, packet: &Packet) -> bool
        ensures { IsTrue result ↔ Fits self.now packet.now }
    {
        packet.payload.len() == self.payload_len()
    }
}
