//! The calls of the deduplicating store.
ghost use Rattle.std.specs.Prelude.{◌≡◌, ℕ, ◌≤◌, [], length, IfOk, slice_index, slice_index_or};
ghost use Rattle.page.specs.Counts.{count_of};
ghost use Rattle.contents.specs.Records.{in_use_in};
ghost use Rattle.contents.specs.View.{users_of, contents_area};
ghost use Rattle.held.specs.View.{size_of, holdings};
ghost use Rattle.dedup.specs.Dedup.{shared_entries, shared_fixed};
ghost use Rattle.dedup.specs.Different.{different, dedup_lack};
ghost use Rattle.dedup.specs.Sizes.{most_pages, most_different};
ghost use Rattle.page.specs.Memory.{page_at};
ghost use Rattle.contents.proofs.Facts.{pages_apart, page_length};
ghost use Rattle.std.proofs.ByRecursion.{All-weaker};
ghost use Rattle.held.specs.Holdings.{taken};
ghost use Rattle.held.proofs.Entries.{tidy_entries};
ghost use Rattle.dedup.specs.Counting.{used_within};
ghost use Rattle.dedup.specs.Kept.{users_of_taken};

use crate::pages::SharedPages;
use contents::{Contents, ContentsMemory};
use held::{Held, MOST};
use index::IndexMemory;
use page::{Count, Key, PAGE_BYTES};
use std::alloc::{AllocError, Global};
use store::HeldPages;

impl SharedPages {
    /// No pages yet, in the memory of contents given, whose page bytes stay as they are, with an index over the memory given. Only
    /// want of memory for the order of the pages refuses it.
    pub fn new(
        heap: Global,
        contents: ContentsMemory,
        index: IndexMemory<u16>,
    ) -> Result<SharedPages, AllocError>
        ensures { IfOk result (λ b. (shared_entries b ≡ []) × (size_of b.held ≡ most_pages (length index.slots.items) (length index.nodes.items)) × (length (users_of b.contents) ≡ most_different (length contents.bytes.items) (length contents.records.items)) × (contents_area b.contents ≡ contents.bytes.items)) }
    {
        let contents = Contents::new(contents);
        let held = Held::new(heap, MOST, index)?;
        let content_at = vec![in heap; 0u16; held.size()]?;
        Ok(SharedPages {
            held,
            contents,
            content_at,
        })
    }

    /// Gives the memory of the contents and of the index back.
    pub fn into_parts(self) -> (ContentsMemory, IndexMemory<u16>)
        ensures bytes { result.0.bytes ≡ self.contents.memory.bytes }
        ensures records { result.0.records ≡ self.contents.records }
        ensures nodes { result.1.nodes ≡ self.held.index.tree.nodes }
        ensures slots { result.1.slots ≡ self.held.index.tree.slots }
    {
        let SharedPages { held, contents, .. } = self;
        (contents.into_memory(), held.into_memory())
    }

    /// How many pages are held, and how many different ones.
    pub fn counts(&self) -> (Count, Count)
        ensures held { result.0 ≡ count_of (length (shared_entries self.now)) }
        ensures different { result.1 ≡ count_of (different (shared_entries self.now)) }
        ensures stored { in_use_in (users_of self.now.contents) ≡ different (shared_entries self.now) }
    {
        let held = Count::Exact(self.held.count() as u32);
        let different = Count::Exact(self.contents.in_use() as u32);
        (held, different)
    }
}

impl HeldPages for SharedPages {
    ghost entries = { shared_entries };

    ghost fixed = { shared_fixed };

    ghost lack = { dedup_lack };

    ghost tidied = { λ b.
        let g : ℕ → ℕ = λ q. slice_index_or b.content_at.items q 0 in
        let users = users_of b.contents in
        let area = contents_area b.contents in
        tidy_entries b.held (λ q. page_at area (g q))
        (All-weaker (λ q. 1 ≤ slice_index users (g q)) (λ q. length (page_at area (g q)) ≡ 256) (λ q used. page_length b.contents (g q) (used_within users (g q) used))
        (taken (holdings b.held)) (users_of_taken users area g (holdings b.held) b.counted (pages_apart b.contents))) };

    fn lacks(&self, page: &[u8]) -> bool {
        if self.held.count() >= self.held.size() {
            return true;
        }
        self.contents.in_use() >= self.contents.size() && self.contents.find(page).is_none()
    }

    // A slice that is no page is asked for here and in `take`, which answer for any slice, and not only for a store's.
    fn append(&mut self, key: Key, page: &[u8]) -> bool {
        if page.len() != PAGE_BYTES {
            return false;
        }
        let Some(place) = self.held.push(key) else {
            return false;
        };
        let Some(content) = self.contents.acquire(page) else {
            let _ = self.held.remove(key);
            return false;
        };
        self.content_at[usize::from(place)] = content;
        true
    }

    fn remove(&mut self, key: Key) {
        if let Some(place) = self.held.remove(key) {
            self.contents.release(self.content_at[usize::from(place)]);
        }
    }

    fn read(&self, key: Key, out: &mut [u8]) -> bool {
        let Some(place) = self.held.find(key) else {
            return false;
        };
        self.contents.read(self.content_at[usize::from(place)], out)
    }

    fn take(&mut self, key: Key, out: &mut [u8]) -> bool {
        if out.len() != PAGE_BYTES {
            return false;
        }
        let Some(place) = self.held.remove(key) else {
            return false;
        };
        let content = self.content_at[usize::from(place)];
        let found = self.contents.read(content, out);
        self.contents.release(content);
        found
    }

    // The four below ask `held`, as the other store's do: as bodies in the trait they would make `store` stand on `held`.
    fn holds(&self, key: Key) -> bool {
        self.held.find(key).is_some()
    }

    fn first_from(&self, key: Key) -> Option<Key> {
        self.held.first_from(key)
    }

    fn pool_pages(&self, pool: u8) -> u32 {
        self.held.pool_count(pool)
    }

    fn victim(&self) -> Option<Key> {
        self.held.victim()
    }
}
