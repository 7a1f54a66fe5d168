//! Making held keys, and taking them apart.
ghost use Rattle.std.specs.Prelude.{◌≡◌, ℕ, ◌+◌, ◌<◌, ◌≤◌, min, [], length, IfOk, vec_len};
ghost use Rattle.index.specs.Map.{room};
ghost use Rattle.held.specs.Makings.{below};
ghost use Rattle.held.specs.Records.{older_in, newer_in};
ghost use Rattle.held.specs.Rings.{Rings};
ghost use Rattle.held.specs.View.{holdings, size_of};

use crate::held::Held;
use crate::table::{Record, close, link_before};
use index::{Index, IndexMemory};
use page::Key;
use std::alloc::{AllocError, Global};

/// The most keys that are held, whatever memory is given.
pub const MOST: usize = 4096;

// Makes the ring of held places empty, and links every place into the ring of free ones.
fn free_all(table: &mut Vec<Record>, size: usize)
    requires small { size ≤ 4096 }
    requires long { length table.old.items ≡ size + 2 }
    ensures rings { Rings (newer_in table.new.items) (older_in table.new.items) size size (size + 1) [] (below size) }
    ensures len { length table.new.items ≡ length table.old.items }
{
    let free_end = size as u16 + 1;
    close(table, size as u16);
    close(table, free_end);
    for place in 0..size {
        link_before(table, free_end, place as u16);
    }
}

impl Held {
    /// No keys yet, and room for `most` of them, or as many as `MOST` and the memory of the index allow.
    pub fn new(heap: Global, most: usize, memory: IndexMemory<u16>) -> Result<Held, AllocError>
        ensures { IfOk result (λ h. (holdings h ≡ []) × (size_of h ≡ min (min most 4096) (room (length memory.slots.items) (length memory.nodes.items)))) }
    {
        let index = Index::new(memory);
        let size = most.min(MOST).min(index.room());
        let blank = Record {
            key: Key::from(0),
            older: 0,
            newer: 0,
        };
        let mut table = vec![in heap; blank; size + 2]?;
        free_all(&mut table, size);
        Ok(Held {
            size,
            count: 0,
            table,
            index,
        })
    }

    /// Gives the memory of the index back.
    pub fn into_memory(self) -> IndexMemory<u16>
        ensures nodes { result.nodes ≡ self.index.tree.nodes }
        ensures slots { result.slots ≡ self.index.tree.slots }
    {
        let Held { index, .. } = self;
        index.into_memory()
    }
}
