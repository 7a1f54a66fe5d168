//! Commands written as the lines that they are read from.
ghost use Rattle.std.specs.Prelude.{Some};
ghost use Rattle.command.specs.Texts.{command_text};

use crate::commands::{AnonymousPage, ByteWrite, Command, FilePage};
use std::fmt;

impl fmt::Display for Command {
    ghost output = { λ c. Some (command_text c) };

    fn fmt<W: fmt::Write>(&self, f: &mut fmt::Formatter<W>) -> fmt::Result {
        match *self {
            Command::Admit { guest } => write!(f, "A {guest}"),
            Command::Leave { guest } => write!(f, "L {guest}"),
            Command::ReadFile {
                page: FilePage { guest, file, page },
            } => write!(f, "R {guest} {file} {page}"),
            Command::ReadAnonymous {
                page: AnonymousPage { guest, page },
            } => write!(f, "r {guest} {page}"),
            Command::WriteFile {
                page: FilePage { guest, file, page },
                write: ByteWrite { at, byte },
            } => { write!(f, "W {guest} {file} {page} {at} {byte}") }
            Command::WriteAnonymous {
                page: AnonymousPage { guest, page },
                write: ByteWrite { at, byte },
            } => { write!(f, "w {guest} {page} {at} {byte}") }
            Command::Truncate {
                from: FilePage { guest, file, page },
            } => write!(f, "T {guest} {file} {page}"),
            Command::Release {
                page: AnonymousPage { guest, page },
            } => write!(f, "F {guest} {page}"),
            Command::Sync { guest } => write!(f, "S {guest}"),
            Command::Counts { guest } => write!(f, "C {guest}"),
        }
    }
}

#[cfg(test)]
mod tests {
    use super::*;
    use std::test::Fail;

    #[test]
    fn a_command_is_written_as_its_line(rt: HostRuntime) -> Result<(), Fail> {
        let page = FilePage {
            guest: 1,
            file: 2,
            page: 3,
        };
        let write = ByteWrite { at: 4, byte: 5 };
        let line = format!(in rt.alloc(); "{}", Command::WriteFile { page, write })?;
        assert_eq!(rt; line.as_str(), "W 1 2 3 4 5");
        Ok(())
    }
}
