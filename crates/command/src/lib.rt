//! Commands: what a line of a script asks for, why it is refused, and how a command is written.
#![tactic(auto)]

pub mod commands;
pub mod texts;

pub use commands::{AnonymousPage, ByteWrite, Command, FilePage, LineRefusal};
