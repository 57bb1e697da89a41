// What goes over the wire, from protocol.rs: little-endian words, CRC-32, the header of a frame, the
// wrappers of a packet. Every function answers for every input; callers owe no checking.
#![tactic(auto)]

pub mod bytes;
pub mod crc;
pub mod header;
pub mod packet;
