//! The index itself.
ghost use Rattle.index.specs.Filing.{Whole};

use crate::tree::Tree;

/// Records of a type, each filed under a key, in memory that is given at making.
#[derive(Drop)]
pub struct Index<R> {
    pub(crate) tree: Tree<R>,
    ghost whole: { ∥ Whole tree ∥₁ },
}
