//! Laws of the definitions of datagrams, headers and samples. Nothing is computed here: the clauses are the laws.
ghost use Rattle.std.specs.Prelude.{◌≡◌, ◌↔◌, ◌++◌, ◌*ℤ◌, None, List, ℕ, ℤ, pos};
ghost use Rattle.rtp_wire.specs.declared.encoding.Enc.TheVariants.{L16, L24};
ghost use Rattle.rtp_wire.specs.Octets.{AreOctets};
ghost use Rattle.rtp_wire.specs.Head.{FitsHeader, Head, head_octets};
ghost use Rattle.rtp_wire.specs.Datagram.{IsDatagram, head_at, payload_at, wire_fault_of};
ghost use Rattle.rtp_wire.specs.Sample.{FitsEncoding, sample_octets, sample_value};

/// States that octets are at most one packet, and they are one exactly if they have no fault.
pub fn datagrams_are_read_one_way()
    ensures one { (octets : List ℕ) (head other : Head) (payload rest : List ℕ) →
        IsDatagram octets head payload → IsDatagram octets other rest →
        (head ≡ other) × (payload ≡ rest) }
    ensures fault { (octets : List ℕ) → AreOctets octets →
        (wire_fault_of octets ≡ None)
        ↔ ((head : Head) × (payload : List ℕ) × IsDatagram octets head payload) }
    ensures places { (octets : List ℕ) (head : Head) (payload : List ℕ) →
        IsDatagram octets head payload → (head ≡ head_at octets) × (payload ≡ payload_at octets) }
{}

/// States that a written header is read back, before any payload, and so is a written sample; one of 16 bits is read on
/// the scale of 24 bits.
pub fn written_heads_read_back()
    ensures head { (head : Head) (payload : List ℕ) →
        FitsHeader head → IsDatagram (head_octets head ++ payload) head payload }
    ensures sample_of_24_bits { (v : ℤ) →
        FitsEncoding L24 v → sample_value L24 (sample_octets L24 v) ≡ v }
    ensures sample_of_16_bits { (v : ℤ) →
        FitsEncoding L16 v → sample_value L16 (sample_octets L16 v) ≡ v *ℤ pos 256 }
{}
