//! Laws of an output's datagrams. Nothing is computed here: the clauses are the laws.
ghost use Rattle.std.specs.Prelude.{◌≡◌, ◌+◌, List, ℕ, ℤ, pos, ◌+ℤ◌, ◌≤ℤ◌, ◌<ℤ◌};
ghost use Rattle.rtp_wire.specs.Datagram.{IsDatagram};
ghost use Rattle.rtp_wire.specs.Head.{Head};
ghost use Rattle.rtp_wire.specs.Sample.{block_octets};
ghost use Rattle.mix_packets.specs.declared.out_spec.Output.{Output};
ghost use Rattle.mix_packets.specs.OutSpec.{IsOutput};
ghost use Rattle.mix_packets.specs.Aligned.{aligned};
ghost use Rattle.mix_packets.specs.Block.{block_datagram, block_head, block_start};
ghost use Rattle.mix_packets.specs.Laws.{CountsUp};

/// States that datagrams are read back as their headers and blocks. Of two consecutive datagrams the second continues
/// the sequence number and the timestamp of the first.
pub fn datagrams_count_up()
    ensures read { (out : Output) (number : ℕ) (block : List ℤ) → IsOutput out →
        IsDatagram (block_datagram out number block) (block_head out number)
        (block_octets out.enc block) }
    ensures payload { (out : Output) (number : ℕ) (block : List ℤ) (head : Head) (payload : List ℕ) →
        IsOutput out → IsDatagram (block_datagram out number block) head payload →
        payload ≡ block_octets out.enc block }
    ensures next { (out : Output) (number : ℕ) (block after : List ℤ)
        (head following : Head) (payload rest : List ℕ) → IsOutput out →
        IsDatagram (block_datagram out number block) head payload →
        IsDatagram (block_datagram out (number + 1) after) following rest →
        CountsUp out.frames head following }
{}

/// States that an output which is aligned to a time has the blocks and the numbers that it had: the block at a media
/// time has one header, whatever the times to which the output was aligned, and so one datagram for the same samples.
/// An aligned output begins at the first of its blocks that begins at or after the time. It is the same if it was
/// aligned before, and unchanged at its own start.
pub fn blocks_keep_their_numbers()
    ensures first { (out : Output) (time : ℤ) → IsOutput out → time ≤ℤ (aligned time out).start }
    ensures next { (out : Output) (time : ℤ) → IsOutput out →
        (aligned time out).start <ℤ (time +ℤ pos out.frames) }
    ensures header { (out : Output) (time other : ℤ) (m n : ℕ) → IsOutput out →
        block_start (aligned time out) m ≡ block_start (aligned other out) n →
        block_head (aligned time out) m ≡ block_head (aligned other out) n }
    ensures again { (out : Output) (time other : ℤ) → IsOutput out →
        aligned time (aligned other out) ≡ aligned time out }
    ensures own { (out : Output) → IsOutput out → aligned out.start out ≡ out }
{}
