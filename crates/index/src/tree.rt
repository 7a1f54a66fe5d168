//! The tree over its nodes and record slots, and why a filing is refused.
use super::node::Node;
use super::slot::Slot;

// Its nodes and slots, of which the free ones are counted. They are numbered and not boxed, since all memory is given at making.
// No ghost field says that the tree is sound: while a call is under way a node may have no child yet, and `Sound` names that node.
#[derive(Drop)]
pub(crate) struct Tree<R> {
    pub(crate) nodes: Vec<Node>,
    pub(crate) slots: Vec<Slot<R>>,
    // how many nodes are free, and how many slots
    pub(crate) unused: usize,
    pub(crate) vacant: usize,
}

/// Why a filing is refused.
#[derive(Clone, Copy, PartialEq, Eq, Debug)]
pub enum FileRefusal {
    /// The key is new, and every record slot is taken.
    NoSlot = 41,
    /// The new key needs more nodes than are free.
    TooFewNodes = 42,
}
