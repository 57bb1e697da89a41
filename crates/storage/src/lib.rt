// Partitions, modelled chips and the buffering over them, from storage.rs: what the engine stands on.
#![tactic(auto)]

pub mod buffering;
pub mod chip;
pub mod lent;
pub mod nand;
pub mod nor;
pub mod open;
mod paging;
pub mod partition;
pub mod scratch;
pub mod store;
pub mod types;
