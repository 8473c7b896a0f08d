//! The tests of a reorder window, tried with both kinds.
ghost use Rattle.std.specs.Prelude.{◌≡◌};
ghost use Rattle.path_merge.specs.Window.{IsEmpty};

use super::cases::{STREAM, spec_of};
use super::steps::Sent;
use path_merge::{SlotWindow, SortedWindow, Window};
use rtp_stream::{Put, StreamSpec};
use std::alloc::Global;
use std::process::Abort;

/// Numbers 131070 and 131078 have one remainder by the window's width of 8, so they use one slot in turn. A copy of the
/// second is a duplicate with the same payload or with a different one.
#[test]
fn slots_are_used_again_after_the_wrap(rt: HostRuntime) {
    let spec = spec_of(&rt, STREAM);
    assert!(rt; spec.window() == 8);
    let slots = SlotWindow::new(rt.alloc(), &spec);
    keeps_packets_by_number(&rt, &mut slots.expect(&rt, "there is memory"), &spec);
    let sorted = SortedWindow::new(rt.alloc(), &spec);
    keeps_packets_by_number(&rt, &mut sorted.expect(&rt, "there is memory"), &spec);
}

/// Tests that on an empty window.
fn keeps_packets_by_number<W: Window>(rt: &impl Abort, window: &mut W, spec: &StreamSpec)
    requires empty { IsEmpty (W.held window.old) }
    requires size { W.size window.old ≡ 8 }
{
    let (first, eighth) = (Sent::new(0, 0), Sent::new(7, 0));
    let ninth = Sent::new(8, 0);
    let unlike = Sent { odd: true, ..ninth };
    window.begin_at(131_070);
    assert!(rt;
        (window.base(), window.end()) == (131_070, 131_070),
        "empty"
    );
    assert!(rt; window.put(131_070, first.packet(spec)) == Put::Taken);
    assert!(rt; window.put(131_077, eighth.packet(spec)) == Put::Taken);
    assert!(rt; window.end() == 131_078);
    assert!(rt; window.take_front().map(|packet| packet.seq) == Some(0));
    assert!(rt; window.put(131_078, ninth.packet(spec)) == Put::Taken);
    assert!(rt; window.put(131_078, ninth.packet(spec)) == Put::Double);
    assert!(rt; window.put(131_078, unlike.packet(spec)) == Put::Unlike);
    assert!(rt; window.take_front().is_none());
    assert!(rt; (window.base(), window.end()) == (131_072, 131_079));
}

/// Each kind of window is made twice: if one allocation fails, at most one of the two calls returns an error.
#[test]
fn each_refused_allocation_is_answered(rt: HostRuntime) {
    let spec = spec_of(&rt, STREAM);
    let first = has_slots(rt.alloc(), &spec);
    assert!(rt; has_slots(rt.alloc(), &spec) || first, "a window of slots");
    let first = is_sorted(rt.alloc(), &spec);
    assert!(rt; is_sorted(rt.alloc(), &spec) || first, "a sorted window");
}

/// Returns true if a window of slots was made. Returns false if an allocation failed.
fn has_slots(alloc: Global, spec: &StreamSpec) -> bool {
    SlotWindow::new(alloc, spec).is_ok()
}

/// Returns true if a sorted window was made. Returns false if an allocation failed.
fn is_sorted(alloc: Global, spec: &StreamSpec) -> bool {
    SortedWindow::new(alloc, spec).is_ok()
}
