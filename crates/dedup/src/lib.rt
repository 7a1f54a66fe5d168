//! The deduplicating backend: a list of held pages, of which equal ones are stored once.
#![tactic(auto)]

pub mod calls;
pub mod make;
pub mod pages;

pub use make::{Dedup, new_dedup};
pub use pages::SharedPages;
