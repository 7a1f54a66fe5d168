//! Says, line by line, what a script asks for or why it is refused.
#![tactic(auto)]

use anyhow::anyhow;
use columns::{LINE_BYTES, OutputLine, Values};
use command::{AnonymousPage, ByteWrite, Command, FilePage};
use script::{Level, Line, SCRIPT_BYTES, Script, read_line};
use std::alloc::{AllocError, Global};
use std::fmt;
use std::io::{Read, Write};
use std::process::ExitCode;

// What a command asks for, or what a level is, in words.
#[derive(Drop)]
struct Words<T>(T);

impl fmt::Display for Words<Command> {
    fn fmt<W: fmt::Write>(&self, f: &mut fmt::Formatter<W>) -> fmt::Result {
        match self.0 {
            Command::Admit { guest } => write!(f, "admit guest {guest}"),
            Command::Leave { guest } => write!(f, "let guest {guest} leave"),
            Command::ReadFile {
                page: FilePage { guest, file, page },
            } => write!(f, "read page {page} of file {file} of guest {guest}"),
            Command::ReadAnonymous {
                page: AnonymousPage { guest, page },
            } => write!(f, "read anonymous page {page} of guest {guest}"),
            Command::WriteFile {
                page: FilePage { guest, file, page },
                write: ByteWrite { at, byte },
            } => write!(
                f,
                "write {byte} to byte {at} of page {page} of file {file} of guest {guest}"
            ),
            Command::WriteAnonymous {
                page: AnonymousPage { guest, page },
                write: ByteWrite { at, byte },
            } => write!(
                f,
                "write {byte} to byte {at} of anonymous page {page} of guest {guest}"
            ),
            Command::Truncate {
                from: FilePage { guest, file, page },
            } => write!(
                f,
                "truncate file {file} of guest {guest} from page {page} on"
            ),
            Command::Release {
                page: AnonymousPage { guest, page },
            } => write!(f, "release anonymous page {page} of guest {guest}"),
            Command::Sync { guest } => write!(
                f,
                "write back the dirty file pages of guest {guest}"
            ),
            Command::Counts { guest } => write!(f, "tell the counts of guest {guest}"),
        }
    }
}

impl fmt::Display for Words<Level> {
    fn fmt<W: fmt::Write>(&self, f: &mut fmt::Formatter<W>) -> fmt::Result {
        match self.0 {
            Level::Bare => write!(f, "level 1: frames, files and swap"),
            Level::Shared => write!(f, "level 2: evicted pages kept in spare memory"),
            Level::Packed => write!(f, "level 3: equal anonymous pages stored once"),
        }
    }
}

// What is printed, line by line.
#[derive(Drop)]
struct Report {
    heap: Global,
    text: Vec<u8>,
}

impl Report {
    fn new(heap: Global) -> Report {
        Report {
            heap,
            text: Vec::new(heap),
        }
    }

    fn add_words<T: fmt::Display + Drop>(
        &mut self,
        number: u16,
        words: T,
    ) -> Result<(), AllocError> {
        let text = format!(in self.heap; "{number:>6} {words}\n")?;
        self.text.extend_from_slice(text.as_bytes())
    }

    fn add_line(&mut self, line: OutputLine) -> Result<(), AllocError> {
        let mut buffer = [0; LINE_BYTES];
        let length = line.write(&mut buffer);
        self.text.extend_from_slice(&buffer[..length])
    }

    fn explain_line(&mut self, line: Line<'_>) -> Result<(), AllocError> {
        match read_line(line.text) {
            Ok(command) => self.add_words(line.number, Words(command)),
            Err(refusal) => self.add_line(OutputLine {
                line: line.number,
                answer: refusal.number(),
                values: Values::Number(u32::from(refusal.value())),
            }),
        }
    }
}

fn explain(heap: Global, bytes: &[u8]) -> Result<Vec<u8>, AllocError> {
    let mut report = Report::new(heap);
    let script = Script::open(bytes);
    match script.level() {
        Ok(level) => report.add_words(1, Words(level))?,
        Err(refusal) => report.add_line(OutputLine {
            line: 1,
            answer: refusal.number(),
            values: Values::Nothing,
        })?,
    }
    for line in script {
        report.explain_line(line)?;
    }
    Ok(report.text)
}

// One byte more than a script may have is enough to refuse it.
fn read_script(rt: &HostRuntime) -> anyhow::Result<Vec<u8>> {
    let mut bytes = Vec::new(rt.alloc());
    let read = rt
        .stdin()
        .take(SCRIPT_BYTES as u64 + 1)
        .read_to_end(&mut bytes);
    if let Err(error) = read {
        // the text is on the heap, so that want of memory for it is told as such
        return Err(anyhow!(format!(in rt.alloc(); "the script cannot be read: {error}")?));
    }
    Ok(bytes)
}

fn run(rt: &HostRuntime) -> anyhow::Result<()> {
    let bytes = read_script(rt)?;
    let report = explain(rt.alloc(), bytes.as_slice())?;
    rt.stdout().write_all(report.as_slice())?;
    Ok(())
}

fn main(rt: HostRuntime) -> anyhow::Result<ExitCode> {
    match run(&rt) {
        Ok(()) => Ok(ExitCode::SUCCESS),
        Err(error) => {
            eprintln!(rt; "explain: {error}")?;
            Ok(ExitCode::FAILURE)
        }
    }
}

#[cfg(test)]
mod tests {
    use super::*;
    use std::test::Fail;

    #[test]
    fn refused_scripts(rt: HostRuntime) -> Result<(), Fail> {
        let refused: &[u8] = b"     1  33\n";
        assert_eq!(rt; explain(rt.alloc(), b"")?.as_slice(), refused);
        assert_eq!(rt; explain(rt.alloc(), b"\nP 1\n")?.as_slice(), refused);
        assert_eq!(rt; explain(rt.alloc(), b"P 0\nA 0\n")?.as_slice(), refused);
        assert_eq!(rt; explain(rt.alloc(), b"P 1 \nA 0\n")?.as_slice(), refused);
        Ok(())
    }

    #[test]
    fn the_longest_script(rt: HostRuntime) -> Result<(), Fail> {
        let mut bytes = vec![in rt.alloc(); b'\n'; SCRIPT_BYTES]?;
        let level: &[u8] = b"P 1";
        bytes.as_mut_slice()[0..3].copy_from_slice(level);
        let report = explain(rt.alloc(), bytes.as_slice())?;
        let last: &[u8] = b" 65533  31          0\n";
        assert!(rt; report.len() >= 22);
        assert_eq!(rt; &report.as_slice()[report.len() - 22..], last);
        bytes.push(b'\n')?;
        let refused: &[u8] = b"     1  33\n";
        assert_eq!(rt; explain(rt.alloc(), bytes.as_slice())?.as_slice(), refused);
        Ok(())
    }
}
