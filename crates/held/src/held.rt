//! The held keys themselves.
ghost use Rattle.index.specs.View.{view, nodes, slots};
ghost use Rattle.held.specs.Whole.{WholeIn};

use crate::table::Record;
use index::Index;

/// Keys that are held, oldest put first, each at a place below `size`. The place stays while the key is held, and is used again after.
#[derive(Drop)]
pub struct Held {
    // how many keys at most; the table has two records more, and `table.len() - 2` at each use would be no plainer
    pub(crate) size: usize,
    // as many as the index has records; a field, so that what holds of the table is said of the table alone
    pub(crate) count: usize,
    // the records of the places, then the ends of the rings of held and of free places
    pub(crate) table: Vec<Record>,
    // the place of each key
    pub(crate) index: Index<u16>,
    ghost whole: { ∥ WholeIn size count table.items (view index) (slots index) (nodes index) ∥₁ },
}
