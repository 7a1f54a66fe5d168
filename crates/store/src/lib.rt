//! The list of held pages as a backend, over any way of keeping the pages.
#![tactic(auto)]

pub mod calls;
pub mod pages;
pub mod store;

pub use pages::HeldPages;
pub use store::Store;
