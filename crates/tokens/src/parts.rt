//! The tokens of a line.
ghost use Rattle.std.specs.Prelude.{◌+◌, ◌^◌, ◌<◌};
ghost use Rattle.tokens.specs.Spans.{span, left};

/// A part of the script with its place, which is the index of its first byte.
// Text and place stand in each case: a struct of the two would put a level more into every pattern, and say no more.
#[derive(Clone, Copy)]
pub enum Token<'a> {
    /// The first byte of a line, where a space or the line's end follows.
    Letter {
        text: &'a [u8],
        place: usize,
        letter: char,
    },
    /// A field that writes a number up to 65,535.
    Number {
        text: &'a [u8],
        place: usize,
        value: u16,
    },
    /// Any other field.
    IllFormed {
        text: &'a [u8],
        place: usize,
    },
}

/// What is left of a line.
#[derive(Clone, Copy)]
pub enum Rest<'a> {
    Line(&'a [u8]),
    Fields(&'a [u8]),
    Nothing,
}

/// The tokens of a line, one after another: its letter, then its fields.
#[derive(Drop)]
pub struct Tokens<'a> {
    pub(crate) rest: Rest<'a>,
    // Where `rest` begins.
    pub(crate) place: usize,
    ghost fits: { place + span (left rest) < 2 ^ 64 },
}
