// The engine for C and Rust programs: its calls on numbers and lent slices, under plain names, as the
// static library `lamjhotu_c` exports them. The engine's record lies in bytes that the caller lends.
#![tactic(auto)]

pub mod calls;
mod fields;
pub mod quick;
pub mod state;
