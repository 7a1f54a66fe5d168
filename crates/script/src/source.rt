//! A script and its lines.
ghost use Rattle.std.specs.Prelude.{◌+◌, ◌<◌, ◌≤◌, length};

use crate::levels::{Level, ScriptRefusal};

/// A script that has been opened: its level, and the lines after its first, one after another; a refused script has none.
#[derive(Drop)]
pub struct Script<'a> {
    // No enum of an opened and a refused script: opening answers a script for every input, and what is refused is its level.
    pub(crate) level: Result<Level, ScriptRefusal>,
    // What follows the lines that were handed out, and where it begins.
    pub(crate) rest: &'a [u8],
    pub(crate) place: usize,
    // How many lines were handed out.
    pub(crate) lines: u16,
    // Each line takes a byte at least, so their number fits.
    ghost counted: { lines + length rest.now < 65536 },
    ghost short: { place + length rest.now ≤ 65536 },
}

/// A line of a script, without its end.
#[derive(Clone, Copy)]
pub struct Line<'a> {
    pub text: &'a [u8],
    /// The index of its first byte in the script.
    pub place: usize,
    /// Its number, from 1.
    pub number: u16,
    /// Whether a line feed ends it.
    pub ended: bool,
}
