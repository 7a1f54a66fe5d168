//! Making a slot for a key.
ghost use Rattle.std.specs.Prelude.{◌≡◌, ℕ, ◌+◌, ◌-◌, ◌*◌, ◌/◌, ◌%◌, ◌^◌, ◌<◌, ◌≤◌, false, ◌⊎◌, length, vec_len, MatchResult, slice_set};
ghost use Rattle.index.specs.Nodes.{path_in, child_in};
ghost use Rattle.index.specs.Slots.{marks, mark_in};
ghost use Rattle.index.specs.Sound.{Sound, heads_of, records_of};
ghost use Rattle.index.specs.Filing.{Whole, Placed, Refused, nodes_of, slots_of};

use super::descend::{path_above, step};
use super::node::{set_child, set_path};
use super::slot::set_key;
use super::tree::{FileRefusal, Tree};

impl<R: Copy> Tree<R> {
    // Takes a free node, and makes it the child of `node` whose path is `path`.
    pub(crate) fn add_node(&mut self, node: u32, path: u32) -> u32
        requires sound { Sound self.old node }
        requires left { 0 < self.old.unused }
        requires within { node < length self.old.nodes.items }
        requires small { (16 ≤ path) × (path < 2 ^ 29) }
        requires parent { path_in self.old.nodes.items node ≡ path / 16 }
        requires gap { child_in self.old.nodes.items node (path % 16) ≡ 0 }
        ensures sound { Sound self.new result }
        ensures within { result < length self.new.nodes.items }
        ensures path { path_in self.new.nodes.items result ≡ path }
        ensures empty { (d : ℕ) → d < 16 → child_in self.new.nodes.items result d ≡ 0 }
        ensures slots { self.new.slots ≡ self.old.slots }
        ensures len { length self.new.nodes.items ≡ length self.old.nodes.items }
        ensures unused { self.new.unused + 1 ≡ self.old.unused }
        ensures vacant { self.new.vacant ≡ self.old.vacant }
    {
        let top = self.unused - 1;
        let x = self.nodes[top].free;
        set_path(&mut self.nodes, x, path, node);
        set_child(&mut self.nodes, node, (path & 15) as usize, x);
        self.unused = top;
        x
    }

    // Takes a free slot for the key, and makes it a child of `node`.
    pub(crate) fn take_slot(&mut self, node: u32, key: u32) -> u32
        requires sound { Sound self.old node }
        requires left { 0 < self.old.vacant }
        requires within { node < length self.old.nodes.items }
        requires parent { path_in self.old.nodes.items node ≡ (2 ^ 32 + key) / 16 }
        requires gap { child_in self.old.nodes.items node ((2 ^ 32 + key) % 16) ≡ 0 }
        ensures sound { Sound self.new 0 }
        ensures within { result < slots_of self.old }
        ensures was { mark_in (heads_of self.old) result ≡ 0 }
        ensures marks { marks (heads_of self.new) ≡ slice_set (marks (heads_of self.old)) result (2 ^ 32 + key) }
        ensures records { records_of self.new ≡ records_of self.old }
        ensures len { length self.new.nodes.items ≡ length self.old.nodes.items }
        ensures unused { self.new.unused ≡ self.old.unused }
    {
        let top = self.vacant - 1;
        let p = self.slots[top].head.free;
        let n = self.nodes.len() as u32;
        set_key(&mut self.slots, p, Some(key), node);
        set_child(&mut self.nodes, node, step(key, 0), n + p);
        self.vacant = top;
        p
    }

    // The slot of the key, which is made where there is none.
    pub(crate) fn place(&mut self, key: u32) -> Result<u32, FileRefusal>
        requires { Whole self.old }
        ensures whole { Whole self.new }
        ensures sizes { (nodes_of self.new ≡ nodes_of self.old) × (slots_of self.new ≡ slots_of self.old) }
        ensures cases { MatchResult result (λ p. Placed self.old self.new key p) (λ e. Refused self.old key e × (self.new ≡ self.old)) }
    {
        let end = self.descend(key);
        if end.height == 0 {
            return Ok(end.item - self.nodes.len() as u32);
        }
        if self.vacant == 0 {
            return Err(FileRefusal::NoSlot);
        }
        if self.unused < (end.height - 1) as usize {
            return Err(FileRefusal::TooFewNodes);
        }
        let mut node = end.item;
        for height in (1..end.height).rev() {
            node = self.add_node(node, path_above(key, height) as u32);
        }
        Ok(self.take_slot(node, key))
    }
}
