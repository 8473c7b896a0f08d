//! Packet times: the amount of audio in one packet (AES67, 7.2).
ghost use Rattle.std.specs.Prelude.{◌≡◌};
ghost use Rattle.rtp_wire.specs.PacketTime as spec;

/// Returns true if packets may have this many sampling instants: at 48 kHz these are 125 us, 250 us, 1/3 ms,
/// 1 ms and 4 ms (AES67, 7.2).
pub fn is_packet_time(frames: u16) -> bool
    ensures { result ≡ spec.is_packet_time frames }
{
    frames == 6 || frames == 12 || frames == 16 || frames == 48 || frames == 192
}
