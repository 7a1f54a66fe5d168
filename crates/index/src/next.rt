//! The first key from a given one on.
ghost use Rattle.std.specs.Prelude.{◌≡◌, ℕ, ◌+◌, ◌-◌, ◌*◌, ◌/◌, ◌%◌, ◌^◌, ◌<◌, ◌≤◌, length, vec_len, MatchOption};
ghost use Rattle.index.specs.Nexts.{Ahead, Past, First};
ghost use Rattle.index.specs.Sound.{Sound, heads_of};
ghost use Rattle.index.specs.Descents.{Descended};

use super::descend::{End, step};
use super::tree::Tree;

impl<R: Copy> Tree<R> {
    // The way to the key ended at a node. The first item after it: a later child of that node, or of one above it.
    fn next_branch(&self, key: u32, end: End) -> Option<End>
        requires sound { Sound self.now 0 }
        requires some { 0 < length self.now.nodes.items }
        requires up { 0 < end.height }
        requires descended { Descended self.now.nodes.items (heads_of self.now) key end.item end.height }
        ensures { MatchOption result (Past (heads_of self.now) key) (λ t. Ahead self.now.nodes.items (heads_of self.now) key t.item t.height) }
    {
        let mut node = end.item;
        let mut from = step(key, end.height - 1) + 1;
        for height in end.height - 1..8 {
            let here = &self.nodes[node as usize];
            if let Some(later) = here.children.next(from) {
                return Some(End {
                    item: here.children.child(later),
                    height,
                });
            }
            from = (here.path & 15) as usize + 1;
            node = here.parent;
        }
        None
    }

    // The first key that is filed, from the given one on.
    pub(crate) fn first_at_or_after(&self, key: u32) -> Option<u32>
        requires { Sound self.now 0 }
        ensures { MatchOption result (Past (heads_of self.now) key) (λ k. First self.now key k) }
    {
        let end = self.descend(key);
        if end.height == 0 {
            return Some(key);
        }
        if self.nodes.is_empty() {
            return None;
        }
        let top = self.next_branch(key, end)?;
        // There is a next key, by the way down over the first children. Each is there, as the slot's key is: `unwrap_or` has nothing
        // to ask at run time, so a caller that does not look at the key need not go down.
        let mut item = top.item;
        for _i in 0..top.height {
            let children = &self.nodes[item as usize].children;
            let first = children.next(0).unwrap_or(0);
            item = children.child(first);
        }
        let slot = item - self.nodes.len() as u32;
        let next = self.slots[slot as usize].head.key.unwrap_or(key);
        Some(next)
    }
}
