//! Looks for rings that are not drained: whose pushing end has not finished, or whose items were not all taken.
ghost use Rattle.std.specs.Prelude.{◌≡◌, ◌≤◌, ◌↔◌, length, vec_len, false};
ghost use Rattle.studio_ends.specs.DrainedRings.{AllDrained, AllFalse, AllLookAt, AreOpen};

use crate::rings::marks::MarkConsumer;
use crate::rings::packets::PacketConsumer;

/// Sets the flag of each path's ring that is still open. Returns true if any is.
pub(crate) fn any_path_open(sides: &mut Vec<PacketConsumer>, open_yet: &mut [bool]) -> bool
    requires space { vec_len sides.old ≤ length open_yet.old }
    requires clear { AllFalse open_yet.old }
    ensures looked { AllLookAt sides.old.items sides.new.items }
    ensures told { AreOpen open_yet.new sides.new.items }
    ensures any { (result ≡ false) ↔ AllDrained sides.new.items }
    ensures count { vec_len sides.new ≡ vec_len sides.old }
{
    let mut any = false;
    for place in 0..sides.len() {
        // All rings are looked at, also after the first open one: the flags name each.
        let drained = sides[place].is_drained();
        open_yet[place] = !drained;
        any |= !drained;
    }
    any
}

/// Sets the flag of each stream's ring that is still open. Returns true if any is.
// As `any_path_open`. One function for both would need a trait with a ghost view of a ring's items.
pub(crate) fn any_stream_open(sides: &mut Vec<MarkConsumer>, open_yet: &mut [bool]) -> bool
    requires space { vec_len sides.old ≤ length open_yet.old }
    requires clear { AllFalse open_yet.old }
    ensures looked { AllLookAt sides.old.items sides.new.items }
    ensures told { AreOpen open_yet.new sides.new.items }
    ensures any { (result ≡ false) ↔ AllDrained sides.new.items }
    ensures count { vec_len sides.new ≡ vec_len sides.old }
{
    let mut any = false;
    for place in 0..sides.len() {
        // All rings are looked at, also after the first open one: the flags name each.
        let drained = sides[place].is_drained();
        open_yet[place] = !drained;
        any |= !drained;
    }
    any
}
