// Text as the engine reads it: UTF-8, white space at both ends of a name or a number, numbers, the tokens of a shell line.
// It carries what shell.rs, storage.rs and protocol.rs ask of Rust's library (`core::str::from_utf8`, `str::trim`, `split`,
// `starts_with`, `u64::from_str_radix`), over bytes. Every answer is fixed for any bytes, and every part that is handed out is a
// part of the caller's slice.
#![tactic(auto)]

pub mod number;
pub mod token;
pub mod trim;
pub mod utf8;
