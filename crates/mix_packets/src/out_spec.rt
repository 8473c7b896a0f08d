//! The specification of an output: what is fixed before its first packet.
ghost use Rattle.std.specs.Prelude.{◌≡◌, ◌≤◌, ◌^◌, ◌≤ℤ◌, pos, false, true, None, Some, IfOk, IfErr, OnErr, OnOk};
ghost use Rattle.mix_packets.specs.Aligned.{aligned};
ghost use Rattle.mix_packets.specs.OutSpec.{
  IsOutput,
  datagram_length,
  is_start,
  out_fault_of,
  payload_length,
  shift_of,
};
ghost use Rattle.mix_packets.specs.declared.out_spec.OutFault.TheVariants.{Start};

use rtp_wire::{Enc, is_packet_time};
use std::marker::Model;
use thiserror::Error;

/// The reason why an output is refused: the first of these that holds, in this order.
#[derive(Clone, Copy, Debug, PartialEq, Eq, Error)]
pub enum OutFault {
    /// The channels are not from 1 to 8.
    #[error("channels are not from 1 to 8")]
    Channels,
    /// The sampling instants per packet are not 6, 12, 16, 48 or 192.
    #[error("frames per packet are not allowed")]
    Frames,
    /// The payload type is not a dynamic one, 96 to 127 (RFC 3551).
    #[error("the payload type is not from 96 to 127")]
    PayloadType,
    /// A packet's samples take more than 1,440 octets.
    #[error("a payload would have more than 1440 octets")]
    TooLong,
    /// The start is not from 0 to 2^60 sampling instants.
    #[error("the start is not from 0 to 2^60")]
    Start,
}

/// The greatest start of an output, 2^60 sampling instants, which is also the greatest reading of a merge's clock.
const MAX_START: i64 = 1_152_921_504_606_846_976;

/// The parts of an output's specification: its encoding and packets, their source, and the numbers of the first one.
/// `OutSpec::of` looks for faults in them.
#[derive(Clone, Copy, Debug)]
pub struct Output {
    /// The encoding of each sample.
    pub enc: Enc,
    /// The number of channels.
    pub channels: u8,
    /// Sampling instants per packet.
    pub frames: u16,
    /// The RTP payload type (RFC 3551).
    pub pt: u8,
    /// The synchronization source (RFC 3550, 5.1).
    pub ssrc: u32,
    /// The sequence number of the first packet.
    pub seq0: u16,
    /// The media time of the first packet, in sampling instants.
    pub start: i64,
    /// The timestamp minus the media time of each packet, modulo 2^32 (AES67).
    pub offset: u32,
}

impl Output {
    /// Returns the number of octets of each packet's samples.
    fn payload_len(&self) -> usize
        ensures { result ≡ payload_length self.now }
    {
        usize::from(self.frames) * usize::from(self.channels) * self.enc.octets()
    }
}

/// The specification of an output, in which there is no fault.
#[derive(Clone, Copy, Debug)]
pub struct OutSpec {
    output: Output,
}

impl Model for OutSpec {
    ghost use Rattle.mix_packets.specs.declared.out_spec.Output.{Output};
    ghost use Rattle.mix_packets.specs.OutSpec.{IsOutput};

    ghost Value = { Output };

    ghost view = { λ s. s.output };

    ghost invariant = { λ s. IsOutput s.output };

    ghost inverse = { λ s. record { output = s } };
}

impl OutSpec {
    /// Returns the specification of an output, or the first fault in it.
    pub fn of(output: Output) -> Result<OutSpec, OutFault>
        ensures ok { IfOk result (λ s. s ≡ output) }
        ensures fine { IfOk result (λ s. out_fault_of s ≡ None) }
        ensures fault { IfErr result (λ e. out_fault_of output ≡ Some e) }
    {
        if output.channels < 1 || output.channels > 8 {
            return Err(OutFault::Channels);
        }
        if !is_packet_time(output.frames) {
            return Err(OutFault::Frames);
        }
        if output.pt < 96 || output.pt > 127 {
            return Err(OutFault::PayloadType);
        }
        // So a packet fits an Ethernet frame.
        if output.payload_len() > 1440 {
            return Err(OutFault::TooLong);
        }
        if output.start < 0 || output.start > MAX_START {
            return Err(OutFault::Start);
        }
        Ok(OutSpec { output })
    }

    /// Returns the specification of an output of these parts, or the first fault in it.
    pub fn new(
        enc: Enc,
        channels: u8,
        frames: u16,
        pt: u8,
        ssrc: u32,
        seq0: u16,
        start: i64,
        offset: u32,
    ) -> Result<OutSpec, OutFault>
        ensures ok { IfOk result (λ s. s ≡ record { enc = enc; channels = channels; frames = frames; pt = pt; ssrc = ssrc; seq0 = seq0; start = start; offset = offset }) }
        ensures fine { IfOk result (λ s. out_fault_of s ≡ None) }
        ensures fault { IfErr result (λ e. out_fault_of (record { enc = enc; channels = channels; frames = frames; pt = pt; ssrc = ssrc; seq0 = seq0; start = start; offset = offset }) ≡ Some e) }
    {
        OutSpec::of(Output {
            enc,
            channels,
            frames,
            pt,
            ssrc,
            seq0,
            start,
            offset,
        })
    }

    /// Returns the output with another media time of its first packet, or `OutFault::Start` if that isn't from 0 to
    /// 2^60 sampling instants.
    pub fn starting_at(self, start: i64) -> Result<OutSpec, OutFault>
        ensures ok { IfOk result (λ s. s ≡ record self { start = start }) }
        ensures fine { OnOk result (is_start start ≡ true) }
        ensures fault { OnErr result (is_start start ≡ false) }
    {
        if start < 0 || start > MAX_START {
            return Err(OutFault::Start);
        }
        Ok(OutSpec {
            output: Output {
                start,
                ..self.output
            },
        })
    }

    /// Returns the output from the first of its blocks on that begins at `time` or after it. The blocks and their
    /// numbers stay as they are, so this block may be one before the first packet, with a number below `seq0`.
    ///
    /// The error is `OutFault::Start` if the block does not begin from 0 to 2^60 sampling instants.
    pub fn aligned_to(self, time: i64) -> Result<OutSpec, OutFault>
        requires low { pos 0 ≤ℤ time }
        requires high { time ≤ℤ pos (2 ^ 60) }
        ensures ok { IfOk result (λ s. s ≡ aligned time self) }
        ensures fine { OnOk result (is_start (aligned time self).start ≡ true) }
        ensures fault { IfErr result (λ e. e ≡ Start) }
        ensures late { OnErr result (is_start (aligned time self).start ≡ false) }
    {
        let frames = i64::from(self.output.frames);
        let ahead = self.output.start - time;
        let start = time + ahead.rem_euclid(frames);
        if start > MAX_START {
            return Err(OutFault::Start);
        }
        let block = -ahead.div_euclid(frames);
        let seq0 = (i64::from(self.output.seq0) + block).rem_euclid(65_536) as u16;
        Ok(OutSpec {
            output: Output {
                seq0,
                start,
                ..self.output
            },
        })
    }

    /// Returns the encoding of each sample.
    pub fn enc(&self) -> Enc
        ensures { result ≡ self.now.enc }
    {
        self.output.enc
    }

    /// Returns the number of channels, 1 to 8.
    pub fn channels(&self) -> u8
        ensures value { result ≡ self.now.channels }
        ensures sound { IsOutput self.now }
    {
        self.output.channels
    }

    /// Returns the number of sampling instants per packet: 6, 12, 16, 48 or 192.
    pub fn frames(&self) -> u16
        ensures value { result ≡ self.now.frames }
        ensures sound { IsOutput self.now }
    {
        self.output.frames
    }

    /// Returns the RTP payload type, 96 to 127 (RFC 3551).
    pub fn pt(&self) -> u8
        ensures value { result ≡ self.now.pt }
        ensures sound { IsOutput self.now }
    {
        self.output.pt
    }

    /// Returns the synchronization source (RFC 3550, 5.1).
    pub fn ssrc(&self) -> u32
        ensures { result ≡ self.now.ssrc }
    {
        self.output.ssrc
    }

    /// Returns the sequence number of the first packet.
    pub fn seq0(&self) -> u16
        ensures { result ≡ self.now.seq0 }
    {
        self.output.seq0
    }

    /// Returns the media time of the first packet, in sampling instants.
    pub fn start(&self) -> i64
        ensures value { result ≡ self.now.start }
        ensures sound { IsOutput self.now }
    {
        self.output.start
    }

    /// Returns the timestamp minus the media time of each packet, modulo 2^32.
    pub fn offset(&self) -> u32
        ensures { result ≡ self.now.offset }
    {
        self.output.offset
    }

    /// Returns the number of octets of each datagram: the header's 12 and the samples'.
    pub fn datagram_len(&self) -> usize
        ensures value { result ≡ datagram_length self.now }
        ensures short { result ≤ 1452 }
    {
        12 + self.output.payload_len()
    }

    /// Returns the number of bits by which a sum of gains times samples is shifted to a sample of the encoding.
    pub fn shift(&self) -> u32
        ensures { result ≡ shift_of self.now.enc }
    {
        // 16 bits are the unit of the gains; a sample of L16 has eight bits fewer.
        match self.output.enc {
            Enc::L16 => 24,
            Enc::L24 => 16,
        }
    }
}
