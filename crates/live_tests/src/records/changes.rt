//! The octets of the interface for changes of gains and of a change, written by hand, and the number of datagrams next
//! to them.
ghost use Rattle.std.specs.Prelude.{◌≡◌, length};

use super::record::record;
use pcap_file::{
    MAX_BLOCK_LEN, RecordedChange, WholeBlocks, whole_blocks, write_change, write_gains_interface,
};

/// The interface for changes of gains, whose name and description are `gains`.
const INTERFACE: [u8; 56] = [
    1, 0, 0, 0, 0x38, 0, 0, 0, 0x65, 0, 0, 0, 0, 0, 0, 0, 2, 0, 5, 0, 0x67, 0x61, 0x69, 0x6e, 0x73,
    0, 0, 0, 9, 0, 1, 0, 9, 0, 0, 0, 3, 0, 5, 0, 0x67, 0x61, 0x69, 0x6e, 0x73, 0, 0, 0, 0, 0, 0, 0,
    0x38, 0, 0, 0,
];

/// A change on interface 4, 206,161 sampling instants after the opening: the gains 1 and -1/65,536 are in force from
/// two instants before the opening on, and block 258 was next.
const CHANGE: [u8; 84] = [
    6, 0, 0, 0, 0x54, 0, 0, 0, 4, 0, 0, 0, 1, 0, 0, 0, 0x22, 0xd1, 0, 0, 0x34, 0, 0, 0, 0x34, 0, 0,
    0, 0x45, 0, 0, 0x34, 0, 0, 0x40, 0, 0x40, 0x11, 0x3a, 0xba, 0, 0, 0, 0, 0, 0, 0, 0, 0, 0, 0, 0,
    0, 0x20, 0, 0, 0xff, 0xff, 0xff, 0xff, 0xff, 0xff, 0xff, 0xfe, 0, 0, 0, 0, 0, 0, 1, 2, 0, 1, 0,
    0, 0xff, 0xff, 0xff, 0xff, 0x54, 0, 0, 0,
];

/// Returns the change that `CHANGE` has.
fn change() -> RecordedChange<'static>
    ensures { length result.gains.now ≡ 2 }
{
    RecordedChange {
        interface: 4,
        nanoseconds: 4_295_020_834,
        at: -2,
        next_block: 258,
        gains: &[65_536, -1],
    }
}

/// Returns true if a call wrote these octets, and nothing after them.
fn is_written(out: &[u8], len: usize, want: &[u8]) -> bool {
    // 0x55 is the octet that the test fills its buffer with.
    out.get(..len) == Some(want) && out.get(len) == Some(&0x55)
}

/// Returns true if the change is written as these octets.
fn is_change_written(want: &[u8]) -> bool {
    let mut out = [0x55u8; MAX_BLOCK_LEN];
    let len = write_change(&change(), &mut out);
    is_written(&out, len, want)
}

/// Returns true if the interface is written as these octets.
fn is_interface_written(want: &[u8]) -> bool {
    let mut out = [0x55u8; MAX_BLOCK_LEN];
    let len = write_gains_interface(&mut out);
    is_written(&out, len, want)
}

/// Numbers have their most significant octet first in a change's payload, and negative ones are two's complements.
#[test]
fn a_change_and_its_interface_are_these_octets(rt: HostRuntime) {
    assert!(rt; is_change_written(&CHANGE), "the change");
    assert!(rt; is_interface_written(&INTERFACE), "the interface");
}

/// A change is on the interface behind those of the paths, so it is no datagram of a path.
#[test]
fn a_change_does_not_count_as_a_datagram(rt: HostRuntime) {
    let with_four_paths = WholeBlocks {
        len: 84,
        datagrams: 0,
    };
    assert!(rt;
        whole_blocks(&CHANGE, 4) == with_four_paths,
        "the change of a run of 4 paths"
    );
    let with_two_paths = WholeBlocks {
        len: 228,
        datagrams: 1,
    };
    assert!(rt;
        whole_blocks(&record(), 2) == with_two_paths,
        "the datagram of the second path"
    );
}
