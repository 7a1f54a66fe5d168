//! The keys of the pages that a store holds, oldest put first. Each has a place of its own while it is held.
#![tactic(auto)]

mod access;
mod calls;
mod held;
mod keys;
mod make;
mod pools;
mod table;
mod victims;

pub use held::Held;
pub use make::MOST;
