//! The calls of an index.
ghost use Rattle.std.specs.Prelude.{◌≡◌, ℕ, ◌+◌, ◌-◌, ◌^◌, ◌<◌, min, true, [], length, is_some, is_ok, if◌then◌else◌, vec_len};
ghost use Rattle.index.specs.Map.{look, put, without, from, FirstFrom, keys, ruling, room, used};
ghost use Rattle.index.specs.View.{view, nodes, slots, free_nodes, free_slots};

use super::index::Index;
use crate::memory::IndexMemory;
use crate::tree::{FileRefusal, Tree};

impl<R: Copy> Index<R> {
    /// An empty index over the memory given, whatever it holds. Of a `Vec` with more than `LIMIT` entries the others are let go.
    pub fn new(memory: IndexMemory<R>) -> Index<R>
        ensures none { view result ≡ [] }
        ensures nodes { nodes result ≡ min (length memory.nodes.items) (2 ^ 31 - 1) }
        ensures slots { slots result ≡ min (length memory.slots.items) (2 ^ 31 - 1) }
    {
        Index {
            tree: Tree::new(memory),
        }
    }

    /// Gives the memory back.
    pub fn into_memory(self) -> IndexMemory<R>
        ensures nodes { result.nodes ≡ self.tree.nodes }
        ensures slots { result.slots ≡ self.tree.slots }
    {
        self.tree.into_memory()
    }

    /// The record of the key.
    pub fn find(&self, key: u32) -> Option<R>
        ensures { result ≡ look key (view self.now) }
    {
        let slot = self.tree.find(key)?;
        Some(self.tree.record_at(slot))
    }

    /// Files the record under the key, in place of one that is filed there.
    pub fn file(&mut self, key: u32, value: R) -> Result<(), FileRefusal>
        ensures answer { result ≡ ruling (keys (view self.old)) key (slots self.old) (nodes self.old) }
        ensures after { view self.new ≡ (if is_ok result then put key value (view self.old) else view self.old) }
        ensures room { length (view self.old) < room (slots self.old) (nodes self.old) → is_ok result ≡ true }
        ensures again { is_some (look key (view self.old)) ≡ true → is_ok result ≡ true }
        ensures nodes { nodes self.new ≡ nodes self.old }
        ensures slots { slots self.new ≡ slots self.old }
    {
        let slot = self.tree.place(key)?;
        self.tree.set_record_at(slot, value);
        Ok(())
    }

    /// Takes the record of the key out.
    pub fn remove(&mut self, key: u32) -> Option<R>
        ensures value { result ≡ look key (view self.old) }
        ensures after { view self.new ≡ without key (view self.old) }
        ensures nodes { nodes self.new ≡ nodes self.old }
        ensures slots { slots self.new ≡ slots self.old }
        ensures last { view self.new ≡ [] → (free_nodes self.new ≡ nodes self.new - 1) × (free_slots self.new ≡ slots self.new) }
    {
        let slot = self.tree.remove(key)?;
        Some(self.tree.record_at(slot))
    }

    /// The first key that is filed, from the given one on.
    pub fn first_at_or_after(&self, key: u32) -> Option<u32>
        ensures value { result ≡ from key (view self.now) }
        ensures first { FirstFrom key (view self.now) result }
    {
        self.tree.first_at_or_after(key)
    }

    /// How many records are filed.
    pub fn count(&self) -> usize
        ensures count { result ≡ length (view self.now) }
        ensures free { result + free_slots self.now ≡ slots self.now }
    {
        self.tree.slot_count() - self.tree.free_slots()
    }

    /// How many nodes the filed keys take, with the root.
    pub fn nodes_in_use(&self) -> usize
        ensures nodes { result ≡ used (nodes self.now) (keys (view self.now)) }
        ensures free { result + free_nodes self.now ≡ nodes self.now }
        ensures empty { view self.now ≡ [] → result ≡ min 1 (nodes self.now) }
    {
        self.tree.node_count() - self.tree.free_nodes()
    }

    /// How many keys there is room for, whatever they are.
    pub fn room(&self) -> usize
        ensures { result ≡ room (slots self.now) (nodes self.now) }
    {
        let nodes = self.tree.node_count();
        self.tree.slot_count().min(nodes.saturating_sub(1) / 7)
    }
}
