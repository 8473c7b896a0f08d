//! The tests: of rings, of workers and of one thread.
mod alone;
mod fakes;
mod gain_moves;
mod holding;
mod memory;
mod order_of_calls;
mod parts;
mod rings;
mod stats;
mod stream_ends;
mod threads;
mod timed;
mod workers;
