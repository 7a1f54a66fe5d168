//! Scripts: their level, their lines, and the command that a line stands for.
#![tactic(auto)]

pub mod levels;
mod lines;
mod reader;
pub mod reading;
pub mod source;

pub use levels::{Level, ScriptRefusal};
pub use lines::SCRIPT_BYTES;
pub use reading::read_line;
pub use source::{Line, Script};
