// Packets, from class.rs `protocol`: one step takes the transport's state by value and a packet, and hands
// back the next state, what was sent, and status and residue.
#![tactic(auto)]

pub mod port;
pub mod step;
