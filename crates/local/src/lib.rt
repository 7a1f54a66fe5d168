//! The local backend: a list of held pages, each at a place of its own in page memory that is given to it.
#![tactic(auto)]

pub mod calls;
pub mod make;
pub mod pages;

pub use make::{Local, new_local};
pub use pages::LocalPages;
