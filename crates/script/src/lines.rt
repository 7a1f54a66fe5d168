//! Scripts, read line by line.
ghost use Rattle.std.specs.Prelude.{◌≡◌, ◌+◌, ◌≤◌, [], length, take, drop, is_ok, if◌then◌else◌, Err};
ghost use Rattle.std.specs.Iterator.{item_count};
ghost use Rattle.tokens.specs.Cuts.{before};
ghost use Rattle.script.specs.Lines.{lines_of, script_level, LinesLaw};
ghost use Rattle.script.specs.Rows.{later_rows, TakesLine};

use crate::levels::{Level, ScriptRefusal};
use crate::source::{Line, Script};
use tokens::find;

/// The greatest length of a script.
pub const SCRIPT_BYTES: usize = 65_536;

// The first line without its end, and what follows its end.
fn cut(bytes: &[u8]) -> (&[u8], &[u8])
    ensures text { result.0.now ≡ take (before 10 bytes.now) bytes.now }
    ensures rest { result.1.now ≡ drop (before 10 bytes.now + 1) bytes.now }
{
    let end = find(bytes, b'\n');
    let next = bytes.len().min(end + 1);
    (&bytes[..end], &bytes[next..])
}

// A refused script, which has no lines.
fn refused(bytes: &[u8], refusal: ScriptRefusal) -> Script<'_>
    ensures level { result.level ≡ Err refusal }
    ensures rest { result.rest.now ≡ [] }
    ensures place { result.place ≡ 0 }
    ensures lines { result.lines ≡ 0 }
{
    Script {
        level: Err(refusal),
        rest: &bytes[..0],
        place: 0,
        lines: 0,
    }
}

impl<'a> Script<'a> {
    /// Opens a script: reads its level off its first line.
    pub fn open(bytes: &'a [u8]) -> Script<'a>
        ensures level { result.level ≡ script_level bytes.now }
        ensures rest { lines_of result.rest.now ≡ (if is_ok result.level then later_rows (lines_of bytes.now) else []) }
        ensures end { result.place + length result.rest.now ≡ (if is_ok result.level then length bytes.now else 0) }
        ensures lines { result.lines ≡ (if is_ok result.level then 1 else 0) }
        ensures law { LinesLaw bytes.now (lines_of bytes.now) }
    {
        if bytes.len() > SCRIPT_BYTES {
            return refused(bytes, ScriptRefusal::TooLong);
        }
        let (first, rest) = cut(bytes);
        match Level::try_from(first) {
            Ok(level) => Script {
                level: Ok(level),
                rest,
                place: bytes.len() - rest.len(),
                lines: 1,
            },
            Err(refusal) => refused(bytes, refusal),
        }
    }

    /// The level that the first line sets, or why the script is refused.
    pub fn level(&self) -> Result<Level, ScriptRefusal>
        ensures { result ≡ self.now.level }
    {
        self.level
    }
}

impl<'a> Iterator for Script<'a> {
    type Item = Line<'a>;

    ghost next_gives = { TakesLine };

    ghost remaining = { item_count (λ script. lines_of script.rest.now) };

    /// The next line, or none after the last.
    fn next(&mut self) -> Option<Line<'a>> {
        if self.rest.is_empty() {
            return None;
        }
        let (text, rest) = cut(self.rest);
        let line = Line {
            text,
            place: self.place,
            number: self.lines + 1,
            ended: text.len() < self.rest.len(),
        };
        self.place += self.rest.len() - rest.len();
        self.lines = line.number;
        self.rest = rest;
        Some(line)
    }
}
