//! The tests of a live run's record: `record` has its octets, `octets` the calls that write and read them, `changes`
//! those of changes of gains, and `marks` the times in its blocks.
mod changes;
mod marks;
mod octets;
mod record;
