//! The calls of the local store.
ghost use Rattle.std.specs.Prelude.{◌≡◌, [], length, IfOk};
ghost use Rattle.held.specs.View.{size_of};
ghost use Rattle.local.specs.Local.{local_entries, local_fixed};
ghost use Rattle.local.specs.Places.{capacity, local_lack};
ghost use Rattle.page.specs.Memory.{area_of};
ghost use Rattle.local.specs.Kept.{tidy_pages};

use crate::pages::LocalPages;
use held::Held;
use index::IndexMemory;
use page::{Key, PAGE_BYTES, PageMemory};
use std::alloc::{AllocError, Global};
use store::HeldPages;

impl LocalPages {
    /// No pages yet, in the page bytes given, as they are, with an index over the memory given. Only want of memory for
    /// the order of the pages refuses it.
    pub fn new(
        heap: Global,
        bytes: Vec<u8>,
        index: IndexMemory<u16>,
    ) -> Result<LocalPages, AllocError>
        ensures { IfOk result (λ b. (local_entries b ≡ []) × (size_of b.held ≡ capacity (length bytes.items) (length index.slots.items) (length index.nodes.items)) × (b.memory.bytes ≡ bytes)) }
    {
        let memory = PageMemory::new(bytes);
        let held = Held::new(heap, memory.pages(), index)?;
        Ok(LocalPages { held, memory })
    }

    /// Gives the page bytes and the index's memory back.
    pub fn into_parts(self) -> (Vec<u8>, IndexMemory<u16>)
        ensures bytes { result.0 ≡ self.memory.bytes }
        ensures nodes { result.1.nodes ≡ self.held.index.tree.nodes }
        ensures slots { result.1.slots ≡ self.held.index.tree.slots }
    {
        let LocalPages { held, memory } = self;
        (memory.into_bytes(), held.into_memory())
    }
}

impl HeldPages for LocalPages {
    ghost entries = { local_entries };

    ghost fixed = { local_fixed };

    ghost lack = { local_lack };

    ghost tidied = { λ b. tidy_pages b.held (area_of b.memory) b.fits };

    fn lacks(&self, _page: &[u8]) -> bool {
        self.held.count() >= self.held.size()
    }

    // A slice that is no page is asked for here and in `take`, which answer for any slice, and not only for a store's.
    fn append(&mut self, key: Key, page: &[u8]) -> bool {
        if page.len() != PAGE_BYTES {
            return false;
        }
        let Some(place) = self.held.push(key) else {
            return false;
        };
        self.memory.write(usize::from(place), page).is_ok()
    }

    fn remove(&mut self, key: Key) {
        let _ = self.held.remove(key);
    }

    fn read(&self, key: Key, out: &mut [u8]) -> bool {
        let Some(place) = self.held.find(key) else {
            return false;
        };
        self.memory.read(usize::from(place), out).is_ok()
    }

    fn take(&mut self, key: Key, out: &mut [u8]) -> bool {
        if out.len() != PAGE_BYTES {
            return false;
        }
        // a freed place keeps its bytes until it is used again
        let Some(place) = self.held.remove(key) else {
            return false;
        };
        self.memory.read(usize::from(place), out).is_ok()
    }

    // The four below ask `held`, as the other store's do: as bodies in the trait they would make `store` stand on `held`.
    fn holds(&self, key: Key) -> bool {
        self.held.find(key).is_some()
    }

    fn first_from(&self, key: Key) -> Option<Key> {
        self.held.first_from(key)
    }

    fn pool_pages(&self, pool: u8) -> u32 {
        self.held.pool_count(pool)
    }

    fn victim(&self) -> Option<Key> {
        self.held.victim()
    }
}
