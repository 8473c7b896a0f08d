//! The tests of reception, from datagrams to the blocks of a lane.
//!
//! In reading order: `wire` has the tests of datagrams and samples, `numbers` and `streams` those of a stream's input,
//! `merges`, `restarts`, `boundaries`, `windows` and `runs` those of merges, and `lanes` those of lanes. `cases`,
//! `bench`, `steps` and `words` help these: a case has its steps in words, a bench takes them, and the fates, marks and
//! counts are compared as words.
mod bench;
mod boundaries;
mod cases;
mod lanes;
mod merges;
mod numbers;
mod restarts;
mod runs;
mod steps;
mod streams;
mod windows;
mod wire;
mod words;
