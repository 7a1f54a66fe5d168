//! Tokens, read off a line one after another.
ghost use Rattle.std.specs.Prelude.{◌≡◌, ◌+◌, ◌^◌, ◌≤◌, length, if◌then◌else◌, nat_lt};
ghost use Rattle.std.specs.Iterator.{at_most};
ghost use Rattle.std.specs.Option.{option_map};
ghost use Rattle.tokens.specs.Spans.{line as whole_line, fields as some_fields, left, span};
ghost use Rattle.tokens.specs.Tokens.{lexeme, field_lexeme, first_token, after_token, token_value, token_letter, value_of, letter_in, fields_in, some, most_tokens, TakesToken};

use crate::cuts::find;
use crate::numbers::number;
use crate::parts::{Rest, Token, Tokens};

impl<'a> Tokens<'a> {
    /// The tokens of a line whose first byte has this place.
    /// Where the place of the line's end would be no `usize`, places count from the line's first byte.
    pub fn new(line: &'a [u8], place: usize) -> Tokens<'a>
        ensures rest { left result.rest ≡ whole_line line.now }
        ensures place { result.place ≡ (if nat_lt (place + length line.now) (2 ^ 64) then place else 0) }
    {
        let place = place.checked_add(line.len()).map_or(0, |_| place);
        Tokens {
            rest: Rest::Line(line),
            place,
        }
    }

    // For a number and for a letter, since one function for both would take a closure that is as long as either.
    /// The number that the next token writes, or none where it writes none or there is none.
    pub fn next_value(&mut self) -> Option<u16>
        ensures value { result ≡ value_of (first_token (left self.old.rest) self.old.place) }
        ensures after { left self.new.rest ≡ after_token (left self.old.rest) }
    {
        self.next()?.value()
    }

    /// The letter that the next token is, or none where it is no letter or there is none.
    pub fn next_letter(&mut self) -> Option<char>
        ensures value { result ≡ letter_in (first_token (left self.old.rest) self.old.place) }
        ensures after { left self.new.rest ≡ after_token (left self.old.rest) }
    {
        self.next()?.letter()
    }
}

impl<'a> Iterator for Tokens<'a> {
    type Item = Token<'a>;

    ghost next_gives = { TakesToken };

    ghost remaining = { λ tokens. at_most (most_tokens (left tokens.rest)) };

    /// The next token, or none where the line has no more.
    // inlined, so that where it is known whether a letter or a field comes next the other is left out
    #[inline]
    fn next(&mut self) -> Option<Token<'a>> {
        let (token, rest) = match self.rest {
            Rest::Line(line) => letter(line, self.place),
            Rest::Fields(fields) => field(fields, self.place),
            Rest::Nothing => (None, Rest::Nothing),
        };
        self.place += self.rest.len() - rest.len();
        self.rest = rest;
        token
    }
}

impl Tokens<'_> {
    /// Whether a field is left; a line's letter comes before its fields.
    #[tactic(auto, using(crate::proofs::Pieces::some_field))]
    pub fn has_fields(&self) -> bool
        ensures { result ≡ some (fields_in (left self.now.rest)) }
    {
        matches!(self.rest, Rest::Fields(_))
    }
}

impl Token<'_> {
    /// The number that the token writes, if it writes one.
    pub fn value(self) -> Option<u16>
        ensures { result ≡ token_value (lexeme self.entry) }
    {
        match self {
            Token::Number { value, .. } => Some(value),
            Token::Letter { .. } | Token::IllFormed { .. } => None,
        }
    }

    /// The letter that the token is, if it is one.
    pub fn letter(self) -> Option<char>
        ensures { result ≡ token_letter (lexeme self.entry) }
    {
        match self {
            Token::Letter { letter, .. } => Some(letter),
            Token::Number { .. } | Token::IllFormed { .. } => None,
        }
    }
}

impl Rest<'_> {
    // How many bytes are left.
    fn len(self) -> usize
        ensures { result ≡ span (left self.entry) }
    {
        match self {
            Rest::Line(bytes) | Rest::Fields(bytes) => bytes.len(),
            Rest::Nothing => 0,
        }
    }
}

// The letter of a line, where a space or the line's end follows its first byte, and what is left.
fn letter(line: &[u8], place: usize) -> (Option<Token<'_>>, Rest<'_>)
    ensures token { option_map lexeme result.0 ≡ first_token (whole_line line.now) place }
    ensures after { left result.1 ≡ after_token (whole_line line.now) }
    ensures less { span (left result.1) ≤ length line.now }
{
    let (letter, rest) = match line {
        [letter, b' ', fields @ ..] => (*letter, Rest::Fields(fields)),
        [letter] => (*letter, Rest::Nothing),
        _ => return (None, Rest::Nothing),
    };
    let token = Token::Letter {
        text: &line[..1],
        place,
        letter: char::from(letter),
    };
    (Some(token), rest)
}

// The first of the fields, and what is left.
fn field(fields: &[u8], place: usize) -> (Option<Token<'_>>, Rest<'_>)
    ensures token { option_map lexeme result.0 ≡ first_token (some_fields fields.now) place }
    ensures after { left result.1 ≡ after_token (some_fields fields.now) }
    ensures less { span (left result.1) ≤ length fields.now }
{
    let end = find(fields, b' ');
    let token = Some(field_token(&fields[..end], place));
    if end < fields.len() {
        (token, Rest::Fields(&fields[end + 1..]))
    } else {
        (token, Rest::Nothing)
    }
}

// The field as a token.
fn field_token(field: &[u8], place: usize) -> Token<'_>
    ensures { lexeme result ≡ field_lexeme field.now place }
{
    match number(field) {
        Some(value) => Token::Number {
            text: field,
            place,
            value,
        },
        None => Token::IllFormed { text: field, place },
    }
}

#[cfg(test)]
mod tests {
    use super::*;
    use std::test::Fail;

    #[test]
    fn places_count_from_the_script(rt: HostRuntime) -> Result<(), Fail> {
        let mut tokens = Tokens::new(b"R 12 x", 4);
        let Some(Token::Letter { place, letter, .. }) = tokens.next() else {
            return Err(Fail::new("no letter"));
        };
        assert_eq!(rt; (place, letter), (4, 'R'));
        let Some(Token::Number { place, value, .. }) = tokens.next() else {
            return Err(Fail::new("no number"));
        };
        assert_eq!(rt; (place, value), (6, 12));
        let Some(Token::IllFormed { place, text }) = tokens.next() else {
            return Err(Fail::new("not ill-formed"));
        };
        assert_eq!(rt; place, 9);
        let field: &[u8] = b"x";
        assert_eq!(rt; text, field);
        assert!(rt; tokens.next().is_none());
        Ok(())
    }
}
