//! Taking a key out.
ghost use Rattle.std.specs.Prelude.{◌≡◌, ℕ, ◌+◌, ◌-◌, ◌*◌, ◌/◌, ◌%◌, ◌^◌, ◌<◌, ◌≤◌, true, false, length, vec_len, MatchOption, slice_set};
ghost use Rattle.index.specs.Keys.{shares};
ghost use Rattle.index.specs.Nodes.{path_in, child_in};
ghost use Rattle.index.specs.Slots.{marks, mark_in};
ghost use Rattle.index.specs.Sound.{Sound, heads_of, records_of};
ghost use Rattle.index.specs.Filing.{Whole, Removed, keys_of, nodes_of, slots_of};

use super::descend::step;
use super::node::{clear_child, set_free, set_path};
use super::slot::{set_free_slot, set_key};
use super::tree::Tree;

impl<R: Copy> Tree<R> {
    // Frees the node, which has no child, and returns its parent.
    pub(crate) fn free_node(&mut self, node: u32) -> u32
        requires sound { Sound self.old node }
        requires within { node < length self.old.nodes.items }
        requires used { 1 < path_in self.old.nodes.items node }
        requires empty { (d : ℕ) → d < 16 → child_in self.old.nodes.items node d ≡ 0 }
        requires left { self.old.unused < length self.old.nodes.items }
        ensures sound { Sound self.new result }
        ensures within { result < length self.new.nodes.items }
        ensures path { path_in self.new.nodes.items result ≡ path_in self.old.nodes.items node / 16 }
        ensures gap { child_in self.new.nodes.items result (path_in self.old.nodes.items node % 16) ≡ 0 }
        ensures slots { self.new.slots ≡ self.old.slots }
        ensures len { length self.new.nodes.items ≡ length self.old.nodes.items }
        ensures unused { self.new.unused ≡ self.old.unused + 1 }
    {
        let freed = &self.nodes[node as usize];
        let up = freed.parent;
        let last = (freed.path & 15) as usize;
        set_path(&mut self.nodes, node, 0, up);
        clear_child(&mut self.nodes, up, last);
        set_free(&mut self.nodes, self.unused, node);
        self.unused += 1;
        up
    }

    // Frees the slot of the key, and returns the node whose child it was.
    pub(crate) fn free_slot(&mut self, slot: u32, key: u32) -> u32
        requires sound { Sound self.old 0 }
        requires some { 0 < length self.old.nodes.items }
        requires holds { mark_in (heads_of self.old) slot ≡ 2 ^ 32 + key }
        ensures sound { Sound self.new result }
        ensures within { result < length self.new.nodes.items }
        ensures path { path_in self.new.nodes.items result ≡ (2 ^ 32 + key) / 16 }
        ensures gap { child_in self.new.nodes.items result ((2 ^ 32 + key) % 16) ≡ 0 }
        ensures marks { marks (heads_of self.new) ≡ slice_set (marks (heads_of self.old)) slot 0 }
        ensures records { records_of self.new ≡ records_of self.old }
        ensures len { length self.new.nodes.items ≡ length self.old.nodes.items }
        ensures unused { self.new.unused ≡ self.old.unused }
    {
        let up = self.slots[slot as usize].head.parent;
        set_key(&mut self.slots, slot, None, up);
        clear_child(&mut self.nodes, up, step(key, 0));
        set_free_slot(&mut self.slots, self.vacant, slot);
        self.vacant += 1;
        up
    }

    // Takes the key out, with every node that no other key needs; returns the slot that it had.
    pub(crate) fn remove(&mut self, key: u32) -> Option<u32>
        requires { Whole self.old }
        ensures whole { Whole self.new }
        ensures sizes { (nodes_of self.new ≡ nodes_of self.old) × (slots_of self.new ≡ slots_of self.old) }
        ensures cases { MatchOption result ((shares 0 key (keys_of self.old) ≡ false) × (self.new ≡ self.old)) (λ p. Removed self.old self.new key p) }
    {
        let slot = self.find(key)?;
        let mut node = self.free_slot(slot, key);
        for _height in 1..8u32 {
            if self.nodes[node as usize].children.next(0).is_some() {
                break;
            }
            node = self.free_node(node);
        }
        Some(slot)
    }
}
