//! The memory of an index.
ghost use Rattle.std.specs.Prelude.{◌≡◌, length, replicate, IfOk};
ghost use Rattle.index.specs.Nodes.{Blank};
ghost use Rattle.index.specs.Slots.{blank_slot};

use crate::node::Node;
use crate::slot::Slot;
use std::alloc::{AllocError, Global};

/// Memory for the nodes and the record slots of an index, which is given to it at making.
#[derive(Drop)]
pub struct IndexMemory<R> {
    pub nodes: Vec<Node>,
    pub slots: Vec<Slot<R>>,
}

impl<R: Copy> IndexMemory<R> {
    /// Memory for as many nodes and slots, each slot with the record given.
    pub fn new(
        heap: Global,
        nodes: usize,
        slots: usize,
        blank: R,
    ) -> Result<IndexMemory<R>, AllocError>
        ensures nodes { IfOk result (λ m. length m.nodes.items ≡ nodes) }
        ensures blank { IfOk result (λ m. Blank m.nodes.items) }
        ensures slots { IfOk result (λ m. m.slots.items ≡ replicate slots (blank_slot blank)) }
    {
        // the nodes first: they take most of the memory, and where they cannot be had no slot is filled
        let blank_nodes = vec![in heap; Node::BLANK; nodes]?;
        // pushed one by one: `vec!` clones, and a clone of an `R` need not be equal to it
        let mut blank_slots = Vec::with_capacity(heap, slots)?;
        for _i in 0..slots {
            blank_slots.push(Slot::new(blank))?;
        }
        Ok(IndexMemory {
            nodes: blank_nodes,
            slots: blank_slots,
        })
    }
}

#[cfg(test)]
mod tests {
    use super::*;
    use std::test::Fail;

    #[test]
    fn memory_is_made(rt: HostRuntime) -> Result<(), Fail> {
        let memory = IndexMemory::new(rt.alloc(), 15, 2, 7u16)?;
        assert_eq!(rt; memory.nodes.len(), 15);
        assert_eq!(rt; memory.slots.len(), 2);
        assert_eq!(rt; memory.slots[1].value, 7);
        Ok(())
    }
}
