//! Tests of the two copies of the mix, over sockets in memory.
ghost use Rattle.std.specs.Prelude.{None};

use live_io::{SendHealth, SendingSocket, UdpSink};
use std::process::Abort;
use studio_io::Sink;

/// A socket that takes each datagram, or none.
#[derive(Drop)]
struct MemorySender {
    takes: bool,
}

impl SendingSocket for MemorySender {
    ghost sends = { λ sender. None };

    fn send(&mut self, _datagram: &[u8]) -> bool {
        self.takes
    }
}

/// Each copy is answered by its own socket, and counted as failed if that did not take it.
#[test]
fn each_copy_is_answered_by_its_own_socket(rt: HostRuntime) {
    // Whether the sockets of the two copies take datagrams, and the sends of each copy that failed after two.
    let cases = [
        ("both networks", true, true, [0, 0]),
        ("the first one alone", true, false, [0, 2]),
        ("the second one alone", false, true, [2, 0]),
        ("none", false, false, [2, 2]),
    ];
    for (shows, a, b, failed) in cases {
        let health = SendHealth::new();
        let first = MemorySender { takes: a };
        let second = MemorySender { takes: b };
        let mut sink = UdpSink::new(first, second, &health);
        for _ in 0..2 {
            let answer = sink.send(&[1, 2, 3]);
            assert!(rt; answer.a == a && answer.b == b, "{shows}");
        }
        assert!(rt; health.failed() == failed, "{shows}");
    }
}
