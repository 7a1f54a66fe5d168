//! The records of a tree, and its sizes.
ghost use Rattle.std.specs.Prelude.{◌≡◌, ℕ, ◌+◌, ◌-◌, ◌<◌, length, vec_len, slice_index_or, slice_set};
ghost use Rattle.index.specs.Refusals.{number_of};
ghost use Rattle.index.specs.Sound.{heads_of, records_of};
ghost use Rattle.index.specs.Filing.{nodes_of, slots_of};

use super::memory::IndexMemory;
use super::slot::set_record;
use super::tree::{FileRefusal, Tree};

impl FileRefusal {
    /// The number that the refusal is told by.
    pub fn number(self) -> u8
        ensures { result ≡ number_of self }
    {
        self as u8
    }
}

impl<R: Copy> Tree<R> {
    pub(crate) fn record_at(&self, slot: u32) -> R
        requires { slot < slots_of self.now }
        ensures { result ≡ slice_index_or (records_of self.now) slot result }
    {
        self.slots[slot as usize].value
    }

    pub(crate) fn set_record_at(&mut self, slot: u32, value: R)
        requires { slot < slots_of self.old }
        ensures heads { heads_of self.new ≡ heads_of self.old }
        ensures records { records_of self.new ≡ slice_set (records_of self.old) slot value }
        ensures nodes { self.new.nodes ≡ self.old.nodes }
        ensures unused { self.new.unused ≡ self.old.unused }
        ensures vacant { self.new.vacant ≡ self.old.vacant }
    {
        set_record(&mut self.slots, slot, value);
    }

    // How many nodes and slots there are and how many are free, by four names, since a number to choose them by would say less.
    pub(crate) fn node_count(&self) -> usize
        ensures { result ≡ nodes_of self.now }
    {
        self.nodes.len()
    }

    pub(crate) fn slot_count(&self) -> usize
        ensures { result ≡ slots_of self.now }
    {
        self.slots.len()
    }

    pub(crate) fn free_nodes(&self) -> usize
        ensures { result ≡ self.now.unused }
    {
        self.unused
    }

    pub(crate) fn free_slots(&self) -> usize
        ensures { result ≡ self.now.vacant }
    {
        self.vacant
    }

    // The memory that the tree was made over.
    pub(crate) fn into_memory(self) -> IndexMemory<R>
        ensures nodes { result.nodes ≡ self.nodes }
        ensures slots { result.slots ≡ self.slots }
    {
        IndexMemory {
            nodes: self.nodes,
            slots: self.slots,
        }
    }
}
