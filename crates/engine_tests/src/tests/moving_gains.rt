//! The tests of gains that change while a schedule is in use: each change with its result, and how many may be planned.
use super::gains::{LAST, live_of, two_changes};
use gain_mix::{ChangeFault, LiveSchedule};
use std::process::Abort;

/// A change of gains, for a schedule that is in use from a time on, and its result.
struct Move {
    shows: &'static str,
    from: i64,
    at: i64,
    gain: i32,
    result: Result<(), ChangeFault>,
    /// Times, and the gain that is in force at each of them afterwards.
    gains: [(i64, i32); 5],
}

/// The gains if nothing was changed.
const UNMOVED: [(i64, i32); 5] = [
    (99, 65_536),
    (100, 131_072),
    (101, 131_072),
    (102, 131_072),
    (103, -65_536),
];

const MOVES: [Move; 8] = [
    Move {
        shows: "a time before the next block is refused",
        from: 99,
        at: 98,
        gain: 1,
        result: Err(ChangeFault::Time),
        gains: UNMOVED,
    },
    Move {
        shows: "a time past 2^60 is refused",
        from: 0,
        at: LAST + 1,
        gain: 1,
        result: Err(ChangeFault::Time),
        gains: UNMOVED,
    },
    Move {
        shows: "a gain out of range is refused",
        from: 0,
        at: 99,
        gain: 1_048_577,
        result: Err(ChangeFault::Range),
        gains: UNMOVED,
    },
    Move {
        shows: "a change for now replaces all that was planned",
        from: 99,
        at: 99,
        gain: 7,
        result: Ok(()),
        gains: [(99, 7), (100, 7), (101, 7), (102, 7), (103, 7)],
    },
    Move {
        shows: "a planned change replaces those at and after its time",
        from: 0,
        at: 101,
        gain: 7,
        result: Ok(()),
        gains: [(99, 65_536), (100, 131_072), (101, 7), (102, 7), (103, 7)],
    },
    Move {
        shows: "of two changes at one time the second is in force",
        from: 0,
        at: 103,
        gain: 7,
        result: Ok(()),
        gains: [
            (99, 65_536),
            (100, 131_072),
            (101, 131_072),
            (102, 131_072),
            (103, 7),
        ],
    },
    Move {
        shows: "a change after the others leaves them",
        from: 0,
        at: 104,
        gain: 7,
        result: Ok(()),
        gains: UNMOVED,
    },
    Move {
        shows: "what is past is let go, so the gains at earlier times are not kept",
        from: 101,
        at: 101,
        gain: 7,
        result: Ok(()),
        gains: [(99, 7), (100, 7), (101, 7), (102, 7), (103, 7)],
    },
];

/// Each change is in force from its own time on and replaces what was planned. A refused one changes nothing.
#[test]
fn gains_move_while_a_schedule_is_in_use(rt: HostRuntime) {
    for row in &MOVES {
        let mut live = live_of(&rt, rt.alloc(), &two_changes(&rt, rt.alloc()));
        moves(&rt, row, &mut live);
    }
}

/// Tests one row of `MOVES`.
fn moves(rt: &impl Abort, row: &Move, live: &mut LiveSchedule) {
    assert!(rt;
        live.change(row.from, row.at, &[row.gain]) == row.result,
        "{}",
        row.shows
    );
    for (t, gain) in &row.gains {
        assert!(rt;
            live.at(*t).gains() == [*gain].as_slice(),
            "{}, at {t}",
            row.shows
        );
    }
}

/// The 65th change is refused while 64 changes before it are still to come. A change that replaces them is taken, and
/// so is a change after one of them has come.
#[test]
fn sixty_four_changes_may_be_planned(rt: HostRuntime) {
    let mut live = live_of(&rt, rt.alloc(), &two_changes(&rt, rt.alloc()));
    assert!(&rt; live.change(0, 1, &[1, 1]) == Err(ChangeFault::Shape));
    for t in 1..65 {
        assert!(&rt; live.change(0, t, &[1]) == Ok(()), "{t}");
    }
    assert!(&rt; live.change(0, 65, &[1]) == Err(ChangeFault::TooMany));
    assert!(&rt;
        live.change(0, 64, &[2]) == Ok(()),
        "at the time of the last"
    );
    assert!(&rt; live.change(0, 65, &[1]) == Err(ChangeFault::TooMany));
    live.pass(0);
    assert!(&rt;
        live.change(0, 65, &[1]) == Err(ChangeFault::TooMany),
        "none has come"
    );
    live.pass(1);
    assert!(&rt; live.change(1, 65, &[1]) == Ok(()), "one has come");
    assert!(&rt; live.change(1, 10, &[1]) == Ok(()), "in place of 56");
}
