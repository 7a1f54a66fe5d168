//! Putting, finding and taking out keys.
ghost use Rattle.std.specs.Prelude.{◌≡◌, ℕ, ◌+◌};
ghost use Rattle.held.specs.Holdings.{place_of, without_key, Pushed, FirstHeld};
ghost use Rattle.held.specs.View.{holdings, size_of};

use crate::held::Held;
use crate::table::{link_before, set_key, unlink};
use page::Key;

impl Held {
    /// The place of the key.
    pub fn find(&self, key: Key) -> Option<u16>
        ensures { result ≡ place_of key.number (holdings self.now) }
    {
        self.index.find(u32::from(key))
    }

    // Where the ring of held places begins and ends in the table.
    fn held_end(&self) -> u16
        ensures { result ≡ self.now.size }
    {
        self.size as u16
    }

    // The same of the ring of free places. By a name of its own, since as a parameter it would be no more than the 1 that is added.
    fn free_end(&self) -> u16
        ensures { result ≡ self.now.size + 1 }
    {
        self.size as u16 + 1
    }

    /// Holds the key, newer than all others, at a place where none is held. Changes nothing and answers none where the key is held
    /// already, or as many keys are held as can be.
    pub fn push(&mut self, key: Key) -> Option<u16>
        ensures size { size_of self.new ≡ size_of self.old }
        ensures cases { Pushed (size_of self.old) key.number (holdings self.old) result (holdings self.new) }
    {
        if self.count == self.size {
            return None;
        }
        if self.find(key).is_some() {
            return None;
        }
        let end = self.held_end();
        let place = self.table[usize::from(self.free_end())].newer;
        // the index has room for `size` keys, whatever they are
        let _ = self.index.file(u32::from(key), place);
        unlink(&mut self.table, place);
        link_before(&mut self.table, end, place);
        set_key(&mut self.table, place, key);
        self.count += 1;
        Some(place)
    }

    /// Takes the key out, and answers the place that it had.
    pub fn remove(&mut self, key: Key) -> Option<u16>
        ensures size { size_of self.new ≡ size_of self.old }
        ensures value { result ≡ place_of key.number (holdings self.old) }
        ensures after { holdings self.new ≡ without_key key.number (holdings self.old) }
    {
        let end = self.free_end();
        let freed = self.index.remove(u32::from(key))?;
        unlink(&mut self.table, freed);
        link_before(&mut self.table, end, freed);
        self.count -= 1;
        Some(freed)
    }

    /// The least held key, from the given one on.
    pub fn first_from(&self, key: Key) -> Option<Key>
        ensures { FirstHeld key.number (holdings self.now) result }
    {
        let number = self.index.first_at_or_after(u32::from(key))?;
        Some(Key::from(number))
    }
}
