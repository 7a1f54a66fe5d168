//! The tokens of a line: its letter and its fields, each a part of the script with its place.
#![tactic(auto)]

mod cuts;
mod lexer;
mod numbers;
pub mod parts;

pub use cuts::find;
pub use parts::{Token, Tokens};
