//! Requests and their responses, and both texts of a snapshot.
mod client;
mod controls;
mod memory_requester;
mod requests;
mod sample;
mod sockets;
mod texts;
