//! What a line of a script asks for, and why it is refused.
ghost use Rattle.std.specs.Prelude.{◌≡◌};
ghost use Rattle.command.specs.Refusals.{line_refusal_number, line_refusal_value};

/// A page of a guest's file.
#[derive(Clone, Copy, PartialEq, Eq, Debug)]
pub struct FilePage {
    pub guest: u16,
    pub file: u16,
    pub page: u16,
}

/// A page of a guest's own memory, in no file.
#[derive(Clone, Copy, PartialEq, Eq, Debug)]
pub struct AnonymousPage {
    pub guest: u16,
    pub page: u16,
}

/// A byte to be written, and where in its page.
#[derive(Clone, Copy, PartialEq, Eq, Debug)]
pub struct ByteWrite {
    pub at: u16,
    pub byte: u8,
}

/// What a line asks for.
#[derive(Clone, Copy, PartialEq, Eq, Debug)]
pub enum Command {
    Admit {
        guest: u16,
    },
    Leave {
        guest: u16,
    },
    ReadFile {
        page: FilePage,
    },
    ReadAnonymous {
        page: AnonymousPage,
    },
    WriteFile {
        page: FilePage,
        write: ByteWrite,
    },
    WriteAnonymous {
        page: AnonymousPage,
        write: ByteWrite,
    },
    Truncate {
        from: FilePage,
    },
    Release {
        page: AnonymousPage,
    },
    Sync {
        guest: u16,
    },
    Counts {
        guest: u16,
    },
}

/// Why a line is refused.
#[derive(Clone, Copy, PartialEq, Eq, Debug)]
pub enum LineRefusal {
    /// Its first byte is no command's letter, or neither a space nor the line's end follows it.
    UnknownLetter,
    /// A field is missing, extra or ill-formed: the first such field, from 1.
    BadField { field: u8 },
}

impl LineRefusal {
    /// The number that the refusal is told by.
    // A match, and no discriminants: Rust's `as` takes no enum with a field.
    pub fn number(self) -> u8
        ensures { result ≡ line_refusal_number self }
    {
        match self {
            LineRefusal::UnknownLetter => 31,
            LineRefusal::BadField { .. } => 32,
        }
    }

    // 0 and no `Option`: a number is printed in any case.
    /// The number that is printed with it: the field, or 0.
    pub fn value(self) -> u8
        ensures { result ≡ line_refusal_value self }
    {
        match self {
            LineRefusal::UnknownLetter => 0,
            LineRefusal::BadField { field } => field,
        }
    }
}
