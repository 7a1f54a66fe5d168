//! Lines read as commands.
ghost use Rattle.std.specs.Prelude.{◌≡◌, ℕ, ◌+◌, ◌<◌, ◌≤◌, cond};
ghost use Rattle.script.specs.Cursors.{cursor, outcome};
ghost use Rattle.script.specs.Reading.{number as number_read, byte as byte_read, file_page, anonymous_page, byte_write, command as command_read, whole, read_line};
ghost use Rattle.command.specs.Texts.{ExactReading};

use crate::reader::Reader;
use command::{AnonymousPage, ByteWrite, Command, FilePage, LineRefusal};
use tokens::Tokens;

impl Reader<'_> {
    // The number that the next field writes.
    fn number(&mut self) -> Result<u16, LineRefusal>
        requires { self.old.field < 255 }
        ensures { outcome result self.new ≡ number_read (cursor self.old) }
    {
        let field = self.field;
        let refusal = LineRefusal::BadField { field };
        let value = self.tokens.next_value().ok_or(refusal)?;
        self.field = field + 1;
        Ok(value)
    }

    // The byte that the next field writes.
    fn byte(&mut self) -> Result<u8, LineRefusal>
        requires { self.old.field < 255 }
        ensures { outcome result self.new ≡ byte_read (cursor self.old) }
    {
        let field = self.field;
        u8::try_from(self.number()?).map_err(|_| LineRefusal::BadField { field })
    }

    fn file_page(&mut self) -> Result<FilePage, LineRefusal>
        requires { self.old.field < 250 }
        ensures { outcome result self.new ≡ file_page (cursor self.old) }
    {
        let guest = self.number()?;
        let file = self.number()?;
        let page = self.number()?;
        Ok(FilePage { guest, file, page })
    }

    fn anonymous_page(&mut self) -> Result<AnonymousPage, LineRefusal>
        requires { self.old.field < 250 }
        ensures { outcome result self.new ≡ anonymous_page (cursor self.old) }
    {
        let guest = self.number()?;
        let page = self.number()?;
        Ok(AnonymousPage { guest, page })
    }

    fn byte_write(&mut self) -> Result<ByteWrite, LineRefusal>
        requires { self.old.field < 250 }
        ensures { outcome result self.new ≡ byte_write (cursor self.old) }
    {
        let at = self.number()?;
        let byte = self.byte()?;
        Ok(ByteWrite { at, byte })
    }

    // The command with this letter.
    fn command(&mut self, letter: char) -> Result<Command, LineRefusal>
        requires { self.old.field ≡ 1 }
        ensures { outcome result self.new ≡ command_read letter (cursor self.old) }
    {
        match letter {
            'A' => Ok(Command::Admit {
                guest: self.number()?,
            }),
            'L' => Ok(Command::Leave {
                guest: self.number()?,
            }),
            'R' => Ok(Command::ReadFile {
                page: self.file_page()?,
            }),
            'r' => Ok(Command::ReadAnonymous {
                page: self.anonymous_page()?,
            }),
            'W' => Ok(Command::WriteFile {
                page: self.file_page()?,
                write: self.byte_write()?,
            }),
            'w' => Ok(Command::WriteAnonymous {
                page: self.anonymous_page()?,
                write: self.byte_write()?,
            }),
            'T' => Ok(Command::Truncate {
                from: self.file_page()?,
            }),
            'F' => Ok(Command::Release {
                page: self.anonymous_page()?,
            }),
            'S' => Ok(Command::Sync {
                guest: self.number()?,
            }),
            'C' => Ok(Command::Counts {
                guest: self.number()?,
            }),
            _ => Err(LineRefusal::UnknownLetter),
        }
    }

    // The command with this letter, where no field is left behind it.
    fn whole_command(&mut self, letter: char) -> Result<Command, LineRefusal>
        requires { self.old.field ≡ 1 }
        ensures { result ≡ whole (command_read letter (cursor self.old)) }
    {
        let command = self.command(letter)?;
        if self.tokens.has_fields() {
            return Err(LineRefusal::BadField { field: self.field });
        }
        Ok(command)
    }
}

/// The command that a line stands for, or why it is refused.
pub fn read_line(line: &[u8]) -> Result<Command, LineRefusal>
    ensures value { result ≡ read_line line.now }
    ensures exact { ExactReading line.now result }
{
    let mut tokens = Tokens::new(line, 0);
    let letter = tokens.next_letter().ok_or(LineRefusal::UnknownLetter)?;
    Reader { tokens, field: 1 }.whole_command(letter)
}
