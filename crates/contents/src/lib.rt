//! Different pages, each stored once with a count of its users, in memory that is given at making.
#![tactic(auto)]

mod calls;
mod memory;
mod pages;
mod records;
mod search;
mod sharing;
mod store;

pub use calls::LIMIT;
pub use memory::ContentsMemory;
pub use records::ContentRecord;
pub use store::Contents;
