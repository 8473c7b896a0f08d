//! The tests of gains by worked examples: rounding, saturation and its count, matrices, and schedules of changes.
ghost use Rattle.std.specs.Prelude.{IsTrue, All};
ghost use Rattle.gain_mix.specs.Mix.{Is24Bits};

use gain_mix::{
    LiveSchedule, Matrix, MatrixFault, Schedule, ScheduleFault, mix_block, mix_counted, mix_frame,
    mix_span,
};
use std::alloc::Global;
use std::process::Abort;

/// Returns true if all values have 24 bits.
fn are_24_bits(values: &[i32]) -> bool
    ensures { IsTrue result → All Is24Bits values.now }
{
    values
        .iter()
        .all(|value| -8_388_608 <= *value && *value <= 8_388_607)
}

/// Mixes a block.
fn mix(rt: &impl Abort, matrix: &Matrix, ins: &[i32], outs: &mut [i32], frames: usize, shift: u32) {
    // `mix_block` requires these lengths, values and shifts.
    assert!(rt; frames.checked_mul(matrix.ins()) == Some(ins.len()));
    assert!(rt; frames.checked_mul(matrix.outs()) == Some(outs.len()));
    assert!(rt; are_24_bits(ins));
    assert!(rt; shift == 16 || shift == 24);
    mix_block(matrix, ins, outs, frames, shift);
}

/// Gains, inputs, the shift, and the mixed sample.
#[derive(Clone, Copy)]
struct Sum {
    shows: &'static str,
    gains: [i32; 3],
    ins: [i32; 3],
    shift: u32,
    sum: i32,
}

const SUMS: [Sum; 9] = [
    Sum {
        shows: "three gains of 1 saturate once, at the sum",
        gains: [65_536, 65_536, 65_536],
        ins: [8_388_607, 1, -1],
        shift: 16,
        sum: 8_388_607,
    },
    Sum {
        shows: "half of 1 is rounded up to 1",
        gains: [32_768, 0, 0],
        ins: [1, 0, 0],
        shift: 16,
        sum: 1,
    },
    Sum {
        shows: "half of -1 is rounded up to 0",
        gains: [32_768, 0, 0],
        ins: [-1, 0, 0],
        shift: 16,
        sum: 0,
    },
    Sum {
        shows: "half of -3 is rounded up to -1",
        gains: [32_768, 0, 0],
        ins: [-3, 0, 0],
        shift: 16,
        sum: -1,
    },
    Sum {
        shows: "a quarter of -3 is rounded to -1",
        gains: [16_384, 0, 0],
        ins: [-3, 0, 0],
        shift: 16,
        sum: -1,
    },
    Sum {
        shows: "minus the least sample saturates",
        gains: [-65_536, 0, 0],
        ins: [-8_388_608, 0, 0],
        shift: 16,
        sum: 8_388_607,
    },
    Sum {
        shows: "127 is less than half of a step of 16 bits",
        gains: [65_536, 0, 0],
        ins: [127, 0, 0],
        shift: 24,
        sum: 0,
    },
    Sum {
        shows: "128 is half of a step of 16 bits",
        gains: [65_536, 0, 0],
        ins: [128, 0, 0],
        shift: 24,
        sum: 1,
    },
    Sum {
        shows: "the greatest sample saturates in 16 bits",
        gains: [65_536, 0, 0],
        ins: [8_388_607, 0, 0],
        shift: 24,
        sum: 32_767,
    },
];

/// The table of sums in MIXING.md holds: halves round up, and only the sum saturates.
#[test]
fn rounds_half_up_and_saturates_once(rt: HostRuntime) {
    for row in &SUMS {
        let matrix = matrix_of(&rt, rt.alloc(), 1, 3, &row.gains);
        let mut outs = [0];
        mix(&rt, &matrix, &row.ins, &mut outs, 1, row.shift);
        assert!(rt; outs == [row.sum], "{}", row.shows);
    }
}

/// Returns a matrix of these gains.
fn matrix_of(rt: &impl Abort, alloc: Global, outs: usize, ins: usize, gains: &[i32]) -> Matrix {
    Matrix::new(alloc, outs, ins, gains).expect(rt, "a shape that fits, and memory")
}

/// The table of frames in MIXING.md holds: each output is mixed by its own row of gains.
#[test]
fn gains_mix_inputs_by_row(rt: HostRuntime) {
    let matrix = matrix_of(&rt, rt.alloc(), 2, 2, &[65_536, 0, 32_768, -32_768]);
    let ins = [10, 3, -8_388_608, 8_388_607];
    let mut outs = [0; 4];
    mix(&rt, &matrix, &ins, &mut outs, 2, 16);
    assert!(rt; outs == [10, 4, -8_388_608, -8_388_607]);
}

/// A frame of two inputs is mixed by itself as it is in a block.
#[test]
fn one_frame_is_mixed_by_row(rt: HostRuntime) {
    mixes_a_frame(
        &rt,
        &matrix_of(&rt, rt.alloc(), 2, 2, &[65_536, 0, 32_768, -32_768]),
    );
}

/// Tests a frame of two inputs, with a matrix of two outputs and two inputs.
fn mixes_a_frame(rt: &impl Abort, matrix: &Matrix) {
    let mut outs = [0; 2];
    // `mix_frame` requires this shape.
    assert!(rt; matrix.ins() == 2 && matrix.outs() == 2);
    mix_frame(matrix, &[10, 3], &mut outs, 16);
    assert!(rt; outs == [10, 4]);
}

/// The outputs, inputs and gains of a matrix, and its fault.
#[derive(Clone, Copy)]
struct Refused {
    shows: &'static str,
    outs: usize,
    ins: usize,
    gains: &'static [i32],
    fault: MatrixFault,
}

/// One gain for each of 1,025 inputs.
const MANY_GAINS: [i32; 1025] = [0; 1025];

const REFUSED: [Refused; 3] = [
    Refused {
        shows: "two outputs of two inputs have four gains, not three",
        outs: 2,
        ins: 2,
        gains: &[65_536, 0, 32_768],
        fault: MatrixFault::Shape,
    },
    Refused {
        shows: "1,025 inputs are too many",
        outs: 1,
        ins: 1_025,
        gains: &MANY_GAINS,
        fault: MatrixFault::Shape,
    },
    Refused {
        shows: "a gain is at most 16, which is 1,048,576",
        outs: 1,
        ins: 1,
        gains: &[1_048_577],
        fault: MatrixFault::Range,
    },
];

/// A wrong number of gains, too many inputs and a gain out of range are each refused by name.
#[test]
fn matrix_faults(rt: HostRuntime) {
    for row in &REFUSED {
        let fault = Matrix::new(rt.alloc(), row.outs, row.ins, row.gains).err();
        assert!(rt; fault == Some(row.fault), "{}", row.shows);
    }
}

/// The greatest gain, 16.
const SIXTEEN: i32 = 1_048_576;

/// Returns 1,024 gains: 16 for each even place, and this one for each odd one.
fn every_other(gain: i32) -> [i32; 1024] {
    let mut gains = [SIXTEEN; 1024];
    for (place, odd) in gains.iter_mut().enumerate() {
        if place % 2 == 1 {
            *odd = gain;
        }
    }
    gains
}

/// The sum of 1,024 inputs of the least sample at the greatest gain saturates, and with half of the gains negative it
/// is exactly 0: no term and no partial sum is cut.
#[test]
fn sums_of_1024_inputs_are_exact(rt: HostRuntime) {
    let ins = [-8_388_608; 1024];
    for (gain, sum) in [(SIXTEEN, -8_388_608), (-SIXTEEN, 0)] {
        let matrix = matrix_of(&rt, rt.alloc(), 1, 1_024, &every_other(gain));
        let mut outs = [0];
        mix(&rt, &matrix, &ins, &mut outs, 1, 16);
        assert!(rt; outs == [sum], "every other gain is {gain}");
    }
}

/// Appends a change at a time, to a matrix of this shape, outputs and inputs, whose gains are all the same.
fn push_change(
    rt: &impl Abort,
    later: &mut Vec<(i64, Matrix)>,
    time: i64,
    shape: (usize, usize),
    gain: i32,
) {
    let matrix = even_matrix(rt, *later.allocator(), shape, gain);
    assert!(rt; later.push((time, matrix)).is_ok(), "there is memory");
}

/// Returns a matrix of this shape, outputs and inputs, whose gains are all the same.
fn even_matrix(rt: &impl Abort, alloc: Global, shape: (usize, usize), gain: i32) -> Matrix {
    let (outs, ins) = shape;
    assert!(rt; outs <= 2 && ins <= 3);
    matrix_of(rt, alloc, outs, ins, &[gain; 6][..outs * ins])
}

/// Returns the fault of a schedule whose changes have these times and shapes, if it has one.
fn schedule_fault(
    rt: &impl Abort,
    alloc: Global,
    changes: &[(i64, usize, usize)],
) -> Option<ScheduleFault> {
    let mut later = Vec::new(alloc);
    for (time, outs, ins) in changes {
        push_change(rt, &mut later, *time, (*outs, *ins), 0);
    }
    Schedule::new(even_matrix(rt, alloc, (2, 3), 0), later).err()
}

/// Two changes, each a time with its matrix' outputs and inputs, and the schedule's fault.
#[derive(Clone, Copy)]
struct Pair {
    shows: &'static str,
    changes: [(i64, usize, usize); 2],
    fault: Option<ScheduleFault>,
}

/// The latest time that a change may have, 2^60.
pub(super) const LAST: i64 = 1 << 60;

const PAIRS: [Pair; 9] = [
    Pair {
        shows: "the earliest and the latest time",
        changes: [(0, 2, 3), (LAST, 2, 3)],
        fault: None,
    },
    Pair {
        shows: "two changes may follow one another at once",
        changes: [(3, 2, 3), (4, 2, 3)],
        fault: None,
    },
    Pair {
        shows: "two changes at the same time are refused",
        changes: [(3, 2, 3), (3, 2, 3)],
        fault: Some(ScheduleFault::Order),
    },
    Pair {
        shows: "a change before the one before it is refused",
        changes: [(4, 2, 3), (3, 2, 3)],
        fault: Some(ScheduleFault::Order),
    },
    Pair {
        shows: "a time is not negative",
        changes: [(-1, 2, 3), (3, 2, 3)],
        fault: Some(ScheduleFault::Time),
    },
    Pair {
        shows: "a time is at most 2^60",
        changes: [(3, 2, 3), (LAST + 1, 2, 3)],
        fault: Some(ScheduleFault::Time),
    },
    Pair {
        shows: "a time out of range comes before the order",
        changes: [(LAST + 1, 2, 3), (3, 2, 3)],
        fault: Some(ScheduleFault::Time),
    },
    Pair {
        shows: "another number of outputs comes before a time out of range",
        changes: [(-1, 2, 3), (3, 1, 3)],
        fault: Some(ScheduleFault::Shape),
    },
    Pair {
        shows: "another number of inputs comes before the order",
        changes: [(3, 2, 2), (3, 2, 3)],
        fault: Some(ScheduleFault::Shape),
    },
];

/// Each limit of a schedule's shapes and times is tried from both sides. Of several faults `Shape` comes before `Time`,
/// and `Time` before `Order`.
#[test]
fn schedule_faults(rt: HostRuntime) {
    for pair in &PAIRS {
        let fault = schedule_fault(&rt, rt.alloc(), &pair.changes);
        assert!(rt; fault == pair.fault, "{}", pair.shows);
    }
    assert!(rt; schedule_fault(&rt, rt.alloc(), &[]) == None, "no change");
}

/// Returns a schedule of gain 1, from 100 on 2, and from 103 on -1.
pub(super) fn two_changes(rt: &impl Abort, alloc: Global) -> Schedule {
    let mut later = Vec::new(alloc);
    push_change(rt, &mut later, 100, (1, 1), 131_072);
    push_change(rt, &mut later, 103, (1, 1), -65_536);
    let schedule = Schedule::new(even_matrix(rt, alloc, (1, 1), 65_536), later);
    schedule.expect(rt, "changes in order")
}

/// A time, and the gain that is in force then.
const IN_FORCE: [(i64, i32); 5] = [
    (0, 65_536),
    (99, 65_536),
    (100, 131_072),
    (102, 131_072),
    (103, -65_536),
];

/// Each change is in force from its own time on.
#[test]
fn gains_are_in_force_from_their_time_on(rt: HostRuntime) {
    has_gains(&rt, &two_changes(&rt, rt.alloc()));
}

/// Tests the gains of a schedule with two changes, by the times of `IN_FORCE`.
fn has_gains(rt: &impl Abort, schedule: &Schedule) {
    assert!(rt; schedule.later().len() == 2);
    for (t, gain) in &IN_FORCE {
        assert!(rt; schedule.at(*t).gains() == [*gain].as_slice(), "at {t}");
    }
}

/// The table of changes in MIXING.md holds: each change takes effect at its own sampling instant, within a span.
#[test]
fn gains_change_within_a_span(rt: HostRuntime) {
    changes_gains(
        &rt,
        &live_of(&rt, rt.alloc(), &two_changes(&rt, rt.alloc())),
    );
}

/// Returns a schedule in use from 0 on.
pub(super) fn live_of(rt: &impl Abort, alloc: Global, schedule: &Schedule) -> LiveSchedule {
    LiveSchedule::new(alloc, schedule, 0).expect(rt, "a schedule in use")
}

/// Tests the samples of a span within which the gains change.
fn changes_gains(rt: &impl Abort, schedule: &LiveSchedule) {
    let ins = [1, 2, 3, 4, 5, 6];
    let mut outs = [0; 6];
    // `mix_span` requires these values and this shape.
    assert!(rt; are_24_bits(&ins));
    assert!(rt; schedule.ins() == 1 && schedule.outs() == 1);
    mix_span(schedule, 98, &ins, &mut outs, 6, 16);
    assert!(rt; outs == [1, 2, 6, 8, 10, -6]);
}

// Samples of 24 bits are from -8,388,608 to 8,388,607: twice 4,194,304 is past them, and minus twice that just is not.
/// Inputs on both sides of half of full scale.
const LOUD: [i32; 4] = [4_194_303, 4_194_304, -4_194_304, -4_194_305];

/// A sample counts as saturated if its sum is past full scale, and not if the sum is exactly full scale.
#[test]
fn saturated_samples_are_counted(rt: HostRuntime) {
    let matrix = matrix_of(&rt, rt.alloc(), 2, 1, &[131_072, -131_072]);
    let schedule = Schedule::new(matrix, Vec::new(rt.alloc()));
    let schedule = schedule.expect(&rt, "a schedule of no change");
    counts_saturated(&rt, &live_of(&rt, rt.alloc(), &schedule));
}

/// Tests the counts of saturated samples, with a schedule of gains 2 and -2.
fn counts_saturated(rt: &impl Abort, schedule: &LiveSchedule) {
    let mut outs = [0; 8];
    // The second count begins at 5, to see that the call adds to it.
    let mut counts = [0, 5];
    // `mix_counted` requires these values and this shape.
    assert!(rt; are_24_bits(&LOUD));
    assert!(rt; schedule.ins() == 1 && schedule.outs() == 2);
    mix_counted(schedule, 0, &LOUD, &mut outs, 4, 16, &mut counts);
    assert!(rt; outs[2..6] == [8_388_607, -8_388_608, -8_388_608, 8_388_607]);
    assert!(rt; counts == [2, 7]);
}

/// Returns true if a matrix was made, and tests its gains. Returns false if an allocation failed.
fn is_made(rt: &impl Abort, alloc: Global, gains: &[i32]) -> bool {
    match Matrix::new(alloc, 2, 2, gains) {
        Ok(matrix) => {
            assert!(rt; matrix.gains() == gains);
            true
        }
        Err(fault) => {
            assert!(rt; fault == MatrixFault::Memory);
            false
        }
    }
}

/// A matrix is made twice: if one allocation fails, at most one of the two calls returns an error.
#[test]
fn each_refused_allocation_is_answered(rt: HostRuntime) {
    let gains = [65_536, 0, 0, 65_536];
    let first = is_made(&rt, rt.alloc(), &gains);
    let second = is_made(&rt, rt.alloc(), &gains);
    assert!(rt; first || second, "with memory again");
}
