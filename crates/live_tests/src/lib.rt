//! Tests of the parts of a live run, one by one: its sockets and clock, its record and its statistics.
//! Worked cases over public calls.
//!
//! - `sockets`: sockets that fail or are empty, the kernel's table of sockets, and the opening of a live run.
//! - `sends`: the two copies of the mix, and what their sockets did not take.
//! - `late_copies`: when copies of the mix are passed on in which streams are missing.
//! - `hold_ups`: calls of a feed that are held up, and datagrams that are too long.
//! - `records`: the octets of a record as `pcap_file` writes them, and what it reads in them.
//! - `statistics`: the statistics of `rtp_stats`, call by call.
//! - `drift`: the drift of arrival margins, and packets that repeat numbers.
#![tactic(auto)]

#[cfg(test)]
mod drift;
#[cfg(test)]
mod hold_ups;
#[cfg(test)]
mod late_copies;
#[cfg(test)]
mod records;
#[cfg(test)]
mod sends;
#[cfg(test)]
mod sockets;
#[cfg(test)]
mod statistics;
