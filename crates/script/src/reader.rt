//! The fields of a line, read as the parts of a command.
use tokens::Tokens;

// The tokens after a line's letter, and the number of the next field, from 1.
#[derive(Drop)]
pub(crate) struct Reader<'a> {
    pub(crate) tokens: Tokens<'a>,
    // No ghost field bounds it: each number that is read raises it by one, and `invariant_of-self` stays open there.
    // What the few fields of a command need stands in the `requires` of the methods.
    pub(crate) field: u8,
}
