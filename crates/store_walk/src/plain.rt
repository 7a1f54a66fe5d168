//! The plain list that a store is compared with. A page is filled with one byte, so it is kept as that byte.
use std::alloc::{AllocError, Global};

// A page under its key.
#[derive(Clone, Copy)]
struct Entry {
    key: u32,
    byte: u8,
}

/// Each page, oldest put first.
// A list and no map: it is searched from its oldest page on, as the rule is written.
#[derive(Drop)]
pub struct Plain {
    held: Vec<Entry>,
    places: usize,
    // how many different pages there may be
    contents: usize,
}

/// What a drop takes beside the key itself.
#[derive(Clone, Copy)]
pub enum Reach {
    Page,
    Object,
    Pool,
}

impl Reach {
    // Whether a drop of one key takes the other.
    fn takes(self, key: u32, other: u32) -> bool {
        match self {
            Reach::Page => key == other,
            Reach::Object => key >> 12 == other >> 12,
            Reach::Pool => key >> 28 == other >> 28,
        }
    }
}

impl Plain {
    pub fn new(heap: Global, places: usize, contents: usize) -> Plain {
        Plain {
            held: Vec::new(heap),
            places,
            contents,
        }
    }

    pub fn page(&self, key: u32) -> Option<u8> {
        let entry = self.held.iter().find(|entry| entry.key == key)?;
        Some(entry.byte)
    }

    pub fn pool_pages(&self, pool: u32) -> usize {
        self.held
            .iter()
            .filter(|entry| entry.key >> 28 == pool)
            .count()
    }

    pub fn drop_all(&mut self, key: u32, reach: Reach) {
        self.held.retain(|entry| !reach.takes(key, entry.key));
    }

    // The key of the oldest page of the even pool that holds most; of equal pools, of the lowest.
    fn victim(&self) -> Option<u32> {
        // the last of several with most pages is taken
        let fullest = [14, 12, 10, 8, 6, 4, 2, 0]
            .into_iter()
            .max_by_key(|pool| self.pool_pages(*pool))?;
        let oldest = self.held.iter().find(|entry| entry.key >> 28 == fullest)?;
        Some(oldest.key)
    }

    fn has_page(&self, byte: u8) -> bool {
        self.held.iter().any(|entry| entry.byte == byte)
    }

    fn different(&self) -> usize {
        (0..=255u8).filter(|byte| self.has_page(*byte)).count()
    }

    fn lacks(&self, byte: u8) -> bool {
        self.held.len() >= self.places
            || (!self.has_page(byte) && self.different() >= self.contents)
    }

    /// How many pages are held, and how many different ones.
    pub fn counts(&self) -> (usize, usize) {
        (self.held.len(), self.different())
    }

    // Evicts while a place is lacking and an ephemeral page is held.
    fn make_room(&mut self, byte: u8) {
        // as many turns as there can be evictions, so that it ends without a measure
        for _ in 0..self.held.len() {
            if !self.lacks(byte) {
                return;
            }
            let Some(victim) = self.victim() else {
                return;
            };
            self.drop_all(victim, Reach::Page);
        }
    }

    /// Whether the page was accepted.
    pub fn put(&mut self, key: u32, byte: u8) -> Result<bool, AllocError> {
        self.drop_all(key, Reach::Page);
        self.make_room(byte);
        if self.lacks(byte) {
            return Ok(false);
        }
        self.held.push(Entry { key, byte })?;
        Ok(true)
    }

    /// The byte of the page. An ephemeral page goes.
    pub fn get(&mut self, key: u32) -> Option<u8> {
        let found = self.page(key);
        if (key >> 28) % 2 == 0 {
            self.drop_all(key, Reach::Page);
        }
        found
    }
}
