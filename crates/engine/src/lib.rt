// The upgrade engine, from protocol.rs and shell.rs: api has its public calls, bus those on the caller's
// own record, feed cuts a write into turns, frame gathers, exec and the files of commands execute,
// stream takes an update's payload.
#![tactic(auto)]

pub mod api;
pub mod bus;
pub mod command;
pub mod exec;
pub mod feed;
pub mod frame;
pub mod given;
pub mod reply;
pub mod rooms;
pub mod running;
pub mod shell;
pub mod short;
mod store;
pub mod storing;
pub mod stream;
pub mod types;
