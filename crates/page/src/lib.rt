//! Pages in memory, the keys that name them, and counts that are exact or say that they ran over.
#![tactic(auto)]

pub mod counts;
pub mod keys;
pub mod memory;

pub use counts::Count;
pub use keys::Key;
pub use memory::{PAGE_BYTES, PageMemory, PageRefusal};
