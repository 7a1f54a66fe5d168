//! An index of records under 32-bit keys: a radix tree in memory that is given to it, for records of any `Copy` type.
#![tactic(auto)]

mod access;
mod calls;
mod children;
mod descend;
mod index;
mod laws;
mod make;
mod memory;
mod next;
mod node;
mod place;
mod remove;
mod slot;
mod tree;

pub use index::Index;
pub use laws::nothing_leaks;
pub use make::LIMIT;
pub use memory::IndexMemory;
pub use node::Node;
pub use slot::Slot;
pub use tree::FileRefusal;
