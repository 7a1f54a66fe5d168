//! The level of a script, and why a script is refused.
ghost use Rattle.std.specs.Prelude.{◌≡◌};
ghost use Rattle.script.specs.Lines.{level_number, script_refusal_number, level_line, level_or};

/// Which backends keep a guest's evicted pages.
#[derive(Clone, Copy, PartialEq, Eq, Debug)]
pub enum Level {
    /// None: frames, files and swap alone.
    Bare = 1,
    /// Spare memory, under a limit for each pool.
    Shared = 2,
    /// The same, with equal anonymous pages stored once.
    Packed = 3,
}

impl Level {
    /// The number that a script sets the level by.
    pub fn number(self) -> u8
        ensures { result ≡ level_number self }
    {
        self as u8
    }
}

/// Why a whole script is refused.
#[derive(Clone, Copy, PartialEq, Eq, Debug)]
pub enum ScriptRefusal {
    /// It has more than 65,536 bytes.
    TooLong,
    /// Its first line is not exactly `P 1`, `P 2` or `P 3`.
    NoLevel,
}

impl ScriptRefusal {
    /// The number that the refusal is told by.
    // A match, and no discriminants: both cases have one number, and two cases of an enum cannot.
    pub fn number(self) -> u8
        ensures { result ≡ script_refusal_number self }
    {
        match self {
            ScriptRefusal::TooLong | ScriptRefusal::NoLevel => 33,
        }
    }
}

impl TryFrom<&[u8]> for Level {
    type Error = ScriptRefusal;

    ghost try_from_gives = { λ line result. result ≡ level_or (level_line line.now) };

    /// The level that a line sets, where it is exactly a level line.
    fn try_from(line: &[u8]) -> Result<Level, ScriptRefusal> {
        match line {
            [letter, b' ', digit] => match (char::from(*letter), char::from(*digit)) {
                ('P', '1') => Ok(Level::Bare),
                ('P', '2') => Ok(Level::Shared),
                ('P', '3') => Ok(Level::Packed),
                _ => Err(ScriptRefusal::NoLevel),
            },
            _ => Err(ScriptRefusal::NoLevel),
        }
    }
}
