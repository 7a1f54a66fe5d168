//! Lines of output: a number, an answer and values in columns of fixed width.
//!
//! The clauses `fits` of the private functions say that the numbers which were written fit their types.
//! `OutputLine::write` needs that of all values to show that no two lines print alike, and the prover knows it of a number only where it is read.
#![tactic(auto)]

ghost use Rattle.std.specs.Prelude.{◌≡◌, ◌*◌, ◌≤◌, ◌++◌, length, drop, decimal};
ghost use Rattle.std.specs.List.{flat_map, AllByRecursion};
ghost use Rattle.page.specs.Counts.{count_text};
ghost use Rattle.columns.specs.Columns.{right, value_text, values_of, line_text, Counted, Valued, Printable};

use page::Count;

/// How many bytes the longest line has: its number, its answer, nine counts and a line feed.
pub const LINE_BYTES: usize = 110;

/// What a line of output says after its number and its answer.
#[derive(Clone, Copy)]
pub enum Values {
    Nothing,
    Number(u32),
    Counts([Count; 9]),
}

/// A line of output: the line of the script that it answers, the answer (0 is granted), and values.
#[derive(Clone, Copy)]
pub struct OutputLine {
    pub line: u16,
    // A number as it is printed: an Option of a refusal's number would be taken apart here and made anew by each caller.
    pub answer: u8,
    pub values: Values,
}

// Writes the text at the end of the field, with spaces in front.
fn put_right(field: &mut [u8], text: &[u8])
    requires { length text.now ≤ length field.old }
    ensures { field.new ≡ right (length field.old) text.now }
{
    field.fill(b' ');
    let start = field.len() - text.len();
    field[start..].copy_from_slice(text);
}

// Writes the number over the whole field, with spaces in front.
// Not by `write!`: its contract says what was written where it succeeds, and not that it does.
fn put_number(field: &mut [u8], number: u32)
    requires { length (decimal number) ≤ length field.old }
    ensures { field.new ≡ right (length field.old) (decimal number) }
{
    let end = field.len();
    field.fill(b' ');
    itoa::write_digits(u64::from(number), field, end);
}

// Writes the count over the whole field, with spaces in front.
fn put_count(field: &mut [u8], count: Count)
    requires { 10 ≤ length field.old }
    ensures bytes { field.new ≡ right (length field.old) (count_text count) }
    ensures fits { Counted count }
{
    match count {
        Count::Exact(number) => put_number(field, number),
        Count::Over => put_right(field, b"over"),
    }
}

// Writes the counts at the start of the buffer, a column each.
// By index: after a `chunks_exact_mut` the prover knows nothing of what the buffer holds, and `bytes` stays open.
fn put_counts(buffer: &mut [u8], counts: &[Count])
    requires { 11 * length counts.now ≤ length buffer.old }
    ensures bytes { buffer.new ≡ flat_map value_text counts.now ++ drop (11 * length counts.now) buffer.old }
    ensures fits { AllByRecursion Counted counts.now }
{
    for (i, count) in counts.iter().enumerate() {
        let start = 11 * i;
        put_count(&mut buffer[start..start + 11], *count);
    }
}

// Writes the values at the start of the buffer, and answers how many bytes they take.
fn put_values(buffer: &mut [u8], values: &Values) -> usize
    requires { 99 ≤ length buffer.old }
    ensures length { result ≡ length (flat_map value_text (values_of values.now)) }
    ensures short { result ≤ 99 }
    ensures bytes { buffer.new ≡ flat_map value_text (values_of values.now) ++ drop result buffer.old }
    ensures fits { Valued values.now }
{
    match values {
        Values::Nothing => 0,
        Values::Number(number) => {
            put_counts(buffer, &[Count::Exact(*number)]);
            11
        }
        Values::Counts(counts) => {
            put_counts(buffer, counts);
            99
        }
    }
}

impl OutputLine {
    // A buffer and a length, and no `String`: a line's bytes are the caller's, so that no call allocates.
    /// Writes the line at the start of the buffer, answers its length, and leaves the rest of the buffer.
    pub fn write(&self, buffer: &mut [u8; LINE_BYTES]) -> usize
        ensures within { result ≤ 110 }
        ensures length { result ≡ length (line_text self.now) }
        ensures bytes { buffer.new ≡ line_text self.now ++ drop (length (line_text self.now)) buffer.old }
        ensures apart { (other : OutputLine) → Printable other → line_text other ≡ line_text self.now → other ≡ self.now }
    {
        put_number(&mut buffer[..6], u32::from(self.line));
        put_number(&mut buffer[6..10], u32::from(self.answer));
        let end = 10 + put_values(&mut buffer[10..], &self.values);
        buffer[end] = b'\n';
        end + 1
    }
}

#[cfg(test)]
mod tests {
    use super::*;

    #[test]
    fn granted_with_counts(rt: HostRuntime) {
        let mut counts = [Count::Exact(12); 9];
        counts[0] = Count::Exact(0);
        counts[7] = Count::Exact(4294967295);
        counts[8] = Count::Over;
        let line = OutputLine {
            line: 65535,
            answer: 0,
            values: Values::Counts(counts),
        };
        let mut buffer = [b'#'; LINE_BYTES];
        assert_eq!(rt; line.write(&mut buffer), 110);
        assert_eq!(rt;
            &buffer,
            b" 65535   0          0         12         12         12         12         12         12 4294967295       over\n"
        );
    }

    #[test]
    fn refused_with_number(rt: HostRuntime) {
        let line = OutputLine {
            line: 7,
            answer: 255,
            values: Values::Number(42),
        };
        let mut buffer = [b'#'; LINE_BYTES];
        assert_eq!(rt; line.write(&mut buffer), 22);
        let expected: &[u8] = b"     7 255         42\n##";
        assert_eq!(rt; &buffer[0..24], expected);
    }
}
