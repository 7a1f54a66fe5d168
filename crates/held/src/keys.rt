//! The held keys, one after another.
ghost use Rattle.std.specs.Prelude.{◌≡◌};
ghost use Rattle.std.specs.Iterator.{YieldsFirstBy, item_count};
ghost use Rattle.held.specs.Holdings.{keys};
ghost use Rattle.held.specs.View.{holdings};
ghost use Rattle.held.specs.Walks.{keys_left};

use crate::held::Held;
use crate::table::Record;
use page::Key;

// The held keys that are still to come, oldest put first.
#[derive(Drop)]
pub(crate) struct Keys<'a> {
    table: &'a [Record],
    place: u16,
    left: usize,
}

impl Held {
    // The held keys, oldest put first.
    pub(crate) fn keys(&self) -> Keys<'_>
        ensures { keys_left result ≡ keys (holdings self.now) }
    {
        Keys {
            table: &self.table,
            place: self.table[self.size].newer,
            left: self.count,
        }
    }
}

impl Iterator for Keys<'_> {
    type Item = Key;

    ghost next_gives = { YieldsFirstBy (λ k. k.number) keys_left };

    ghost remaining = { item_count keys_left };

    fn next(&mut self) -> Option<Key> {
        self.left = self.left.checked_sub(1)?;
        let record = self.table.get(usize::from(self.place))?;
        self.place = record.newer;
        Some(record.key)
    }
}
