//! Why a backend refuses a call.
ghost use Rattle.std.specs.Prelude.{◌≡◌, Some};
ghost use Rattle.backend.specs.Refusals.{cause_number, refusal_text};

use page::Key;
use std::error::Error;
use std::fmt;

/// What a refusal is for.
#[derive(Clone, Copy, PartialEq, Eq, Debug)]
pub enum Cause {
    /// No place is free, and none can be made free.
    NoPlace = 21,
    /// The pool holds its limit.
    OverLimit = 22,
    /// The slice has not 256 bytes.
    NotAPage = 23,
}

impl Cause {
    /// The number that the cause is told by.
    pub fn number(self) -> u8
        ensures { result ≡ cause_number self }
    {
        self as u8
    }
}

/// A refusal: its cause, the key that was asked for, and the label of the part that refused.
#[derive(Clone, Copy, PartialEq, Eq, Debug)]
pub struct Refusal {
    pub cause: Cause,
    pub key: Key,
    pub label: u32,
}

impl fmt::Display for Refusal {
    ghost output = { λ e. Some (refusal_text e) };

    fn fmt<W: fmt::Write>(&self, f: &mut fmt::Formatter<W>) -> fmt::Result {
        write!(
            f,
            "{} key {} label {}",
            self.cause.number(),
            self.key,
            self.label
        )
    }
}

impl Error for Refusal {}
