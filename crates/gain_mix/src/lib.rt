//! The gain matrix: output samples are exact sums of gains times inputs, rounded once and saturated
//! once.
//!
//! 1. `Matrix::new` takes the gains row by row, one row for each output. `Schedule::new` takes a
//!    first matrix and later ones with their times. `LiveSchedule::new` takes a schedule into use: `change`
//!    adds to it, and `pass` lets go of what is past. Only these three constructors allocate.
//! 2. `mix_frame` mixes the inputs of one frame by a matrix, and `mix_block` those of a block.
//!    `mix_span` mixes a block by the gains in force at each of its times, and `mix_counted` also
//!    counts the saturated samples.
//!
//! Inputs are 24-bit samples, frame by frame. The shift is 16 for 24-bit outputs and 24 for 16-bit
//! outputs. The caller keeps both slices.
#![tactic(auto)]

mod four_rows;
mod live_schedule;
mod matrix;
mod mix;
mod saturation;
mod schedule;

pub use live_schedule::{ChangeFault, LiveSchedule};
pub use matrix::{Matrix, MatrixFault};
pub use mix::{mix_block, mix_frame};
pub use saturation::mix_counted;
pub use schedule::{Schedule, ScheduleFault, mix_span};
