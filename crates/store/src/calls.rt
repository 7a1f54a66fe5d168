//! The calls of a store.
ghost use Rattle.std.specs.Prelude.{◌≡◌, ℕ, ◌/◌, ◌<◌, true, List, []};
ghost use Rattle.std.proofs.Common.{sym, subst};
ghost use Rattle.page.specs.Counts.{count_of};
ghost use Rattle.backend.specs.Listing.{without, room_made, list_rules, tidy};
ghost use Rattle.backend.specs.Meaning.{New};
ghost use Rattle.store.specs.Blocks.{in_block};
ghost use Rattle.store.specs.States.{store_state};
ghost use Rattle.backend.proofs.Keeping.{list_keeps};
ghost use Rattle.backend.specs.Rules.{Entry};
ghost use Rattle.store.specs.StatesLemmas.{listed_is};

use crate::pages::HeldPages;
use crate::store::Store;
use backend::{Account, Backend, Cause, Refusal};
use page::{Count, Key};

impl<H: HeldPages> Store<H> {
    /// A store with this label over held pages.
    pub fn new(label: u32, pages: H) -> Store<H>
        ensures label { result.account.label ≡ label }
        ensures offers { result.account.offers ≡ count_of 0 }
        ensures pages { result.pages ≡ pages }
        ensures new { H.HeldPages.entries pages ≡ [] → New (list_rules H.HeldPages.lack) (store_state H.HeldPages.fixed H.HeldPages.entries result) }
    {
        Store {
            account: Account::new(label),
            pages,
        }
    }

    /// The held pages.
    pub fn pages(&self) -> &H
        ensures { result.now ≡ self.now.pages }
    {
        &self.pages
    }

    /// Gives the held pages back.
    pub fn into_pages(self) -> H
        ensures { result ≡ self.pages }
    {
        let Store { pages, .. } = self;
        pages
    }
}

// Evicts while a place is lacking for the page and an ephemeral page is held.
fn make_room<H: HeldPages>(pages: &mut H, page: &[u8])
    ensures entries { H.HeldPages.entries pages.new ≡ room_made (λ es. H.HeldPages.lack (H.HeldPages.fixed pages.old) es page.now) (H.HeldPages.entries pages.old) }
    ensures fixed { H.HeldPages.fixed pages.new ≡ H.HeldPages.fixed pages.old }
{
    while pages.lacks(page) {
        let Some(victim) = pages.victim() else {
            return;
        };
        pages.remove(victim);
    }
}

// Takes all pages out whose keys are in the same block of `size` keys as the given one.
fn drop_block<H: HeldPages>(pages: &mut H, key: Key, size: u32)
    requires { 0 < size }
    ensures entries { H.HeldPages.entries pages.new ≡ without (in_block size (key.number / size)) (H.HeldPages.entries pages.old) }
    ensures fixed { H.HeldPages.fixed pages.new ≡ H.HeldPages.fixed pages.old }
{
    let block = u32::from(key) / size;
    let first = Key::from(block * size);
    // no iterator: each turn changes the pages that it would borrow
    while let Some(next) = pages.first_from(first) {
        if u32::from(next) / size != block {
            return;
        }
        pages.remove(next);
    }
}

// How many keys an object has, and a pool.
const OBJECT_KEYS: u32 = 0x1000;

const POOL_KEYS: u32 = 0x1000_0000;

impl<H: HeldPages> Backend for Store<H> {
    ghost state = { store_state H.HeldPages.fixed H.HeldPages.entries };

    ghost rules = { list_rules H.HeldPages.lack };

    ghost keeps = { list_keeps H.HeldPages.lack };

    ghost valid = { λ b. subst (λ (es : List Entry). tidy es ≡ true) (sym (listed_is _)) (H.HeldPages.tidied b.pages) };

    fn put(&mut self, key: Key, page: &[u8]) -> Result<(), Refusal> {
        self.account.offer(key, page)?;
        self.pages.remove(key);
        make_room(&mut self.pages, page);
        if self.pages.append(key, page) {
            Ok(())
        } else {
            Err(self.account.refusal(Cause::NoPlace, key))
        }
    }

    fn get(&mut self, key: Key, out: &mut [u8]) -> Result<bool, Refusal> {
        self.account.check(key, out)?;
        let found = if key.is_ephemeral() {
            self.pages.take(key, out)
        } else {
            self.pages.read(key, out)
        };
        Ok(found)
    }

    fn drop_page(&mut self, key: Key) {
        self.pages.remove(key)
    }

    fn drop_object(&mut self, key: Key) {
        drop_block(&mut self.pages, key, OBJECT_KEYS);
    }

    fn drop_pool(&mut self, key: Key) {
        drop_block(&mut self.pages, key, POOL_KEYS);
    }

    fn holds(&mut self, key: Key) -> bool {
        self.pages.holds(key)
    }

    fn pool_pages(&mut self, pool: u8) -> u32 {
        self.pages.pool_pages(pool)
    }

    fn offers(&self) -> Count {
        self.account.offers()
    }
}
