//! Held pages in the order in which they were put, however they are kept.
ghost use Rattle.std.specs.Prelude.{◌≡◌, ℕ, Bool, true, List, [], ◌∷◌, ◌++◌, is_some, if◌then◌else◌};
ghost use Rattle.backend.specs.Listing.{keys_of, without, one, tidy};
ghost use Rattle.backend.specs.Outcomes.{is_page};
ghost use Rattle.backend.specs.Rules.{Entry, lookup};
ghost use Rattle.backend.specs.Victims.{pool_size, victim};
ghost use Rattle.backend.specs.Finding.{FirstHeld, key_number, joins, found, filled};

use page::Key;

/// Pages under keys, oldest put first.
pub trait HeldPages {
    ghost entries: { Self → List Entry };

    // What no call changes: the sizes, and memory that is left alone.
    ghost fixed: { Self → List ℕ };

    // Whether a place is lacking: by what is fixed, the held pages and the page that is offered.
    ghost lack: { List ℕ → List Entry → List ℕ → Bool };

    /// Whether a place is lacking for the page.
    fn lacks(&self, page: &[u8]) -> bool
        ensures { result ≡ lack (fixed self.now) (entries self.now) page.now };

    // A flag, as of a set's insert: the store, which knows its label, makes the refusal.
    /// Adds a page at the end, and says whether it could.
    fn append(&mut self, key: Key, page: &[u8]) -> bool
        ensures answer { result ≡ joins (lack (fixed self.old) (entries self.old) page.now) key.number page.now (entries self.old) }
        ensures entries { entries self.new ≡ (if result then (entries self.old ++ record { key = key.number; page = page.now } ∷ []) else entries self.old) }
        ensures fixed { fixed self.new ≡ fixed self.old };

    /// Takes the page under a key out.
    fn remove(&mut self, key: Key)
        ensures entries { entries self.new ≡ without (one key.number) (entries self.old) }
        ensures fixed { fixed self.new ≡ fixed self.old };

    // A flag, and no lent page: what `take` gives is gone from the store, and a read is told in the same words.
    /// Copies the page under a key out, and says whether there was one.
    fn read(&self, key: Key, out: &mut [u8]) -> bool
        ensures answer { result ≡ found key.number out.old (entries self.now) }
        ensures buffer { out.new ≡ filled key.number out.old (entries self.now) };

    // A flag, and no `Option` of a page: the page goes into the caller's buffer at once, and is copied only there.
    /// Takes the page under a key out and copies it, and says whether there was one. Where `out` is no page, nothing happens.
    fn take(&mut self, key: Key, out: &mut [u8]) -> bool
        ensures answer { result ≡ found key.number out.old (entries self.old) }
        ensures buffer { out.new ≡ filled key.number out.old (entries self.old) }
        ensures entries { entries self.new ≡ (if is_page out.old then without (one key.number) (entries self.old) else entries self.old) }
        ensures fixed { fixed self.new ≡ fixed self.old };

    /// Whether a page is held under a key.
    fn holds(&self, key: Key) -> bool
        ensures { result ≡ is_some (lookup key.number (entries self.now)) };

    /// The first held key, from the given one on.
    fn first_from(&self, key: Key) -> Option<Key>
        ensures { FirstHeld key.number (entries self.now) result };

    /// How many pages a pool holds.
    fn pool_pages(&self, pool: u8) -> u32
        ensures { result ≡ pool_size (keys_of (entries self.now)) pool };

    /// The key of the page that gives way, or none where no ephemeral page is held.
    fn victim(&self) -> Option<Key>
        ensures { key_number result ≡ victim (keys_of (entries self.now)) };

    ghost tidied: { (h : Self) → tidy (entries h) ≡ true };
}
