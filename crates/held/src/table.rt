//! The records of places, and the two rings that they are linked in.
ghost use Rattle.std.specs.Prelude.{◌≡◌, ℕ, ◌<◌, length, vec_len, ◌≢◌};
ghost use Rattle.held.specs.Records.{key_in, older_in, newer_in};
ghost use Rattle.held.specs.Rings.{Unlinked, Linked};

use page::Key;

// A place: the key that is held there, and its neighbours in its ring. The end of a ring is such a record too, whose key is never read.
// Places are numbers, and no pointers: the table is made once, and no later call may want memory. That a place is in the table
// stands in each contract below: it is a fact of the place, and no struct round the table could keep it.
#[derive(Clone, Copy)]
pub(crate) struct Record {
    pub(crate) key: Key,
    pub(crate) older: u16,
    pub(crate) newer: u16,
}

pub(crate) fn set_key(table: &mut Vec<Record>, place: u16, key: Key)
    requires { place < vec_len table.old }
    ensures here { key_in table.new.items place ≡ key.number }
    ensures rest { (j : ℕ) → (j ≢ place) → key_in table.new.items j ≡ key_in table.old.items j }
    ensures older { (j : ℕ) → older_in table.new.items j ≡ older_in table.old.items j }
    ensures newer { (j : ℕ) → newer_in table.new.items j ≡ newer_in table.old.items j }
    ensures len { length table.new.items ≡ length table.old.items }
{
    table[usize::from(place)].key = key;
}

// Makes two places neighbours.
fn join(table: &mut Vec<Record>, older: u16, newer: u16)
    requires older_within { older < vec_len table.old }
    requires newer_within { newer < vec_len table.old }
    ensures newer { newer_in table.new.items older ≡ newer }
    ensures newer_rest { (j : ℕ) → (j ≢ older) → newer_in table.new.items j ≡ newer_in table.old.items j }
    ensures older { older_in table.new.items newer ≡ older }
    ensures older_rest { (j : ℕ) → (j ≢ newer) → older_in table.new.items j ≡ older_in table.old.items j }
    ensures keys { (j : ℕ) → key_in table.new.items j ≡ key_in table.old.items j }
    ensures len { length table.new.items ≡ length table.old.items }
{
    table[usize::from(older)].newer = newer;
    table[usize::from(newer)].older = older;
}

// Makes the end a ring of no places.
pub(crate) fn close(table: &mut Vec<Record>, end: u16)
    requires { end < vec_len table.old }
    ensures newer { newer_in table.new.items end ≡ end }
    ensures older { older_in table.new.items end ≡ end }
    ensures newer_rest { (j : ℕ) → (j ≢ end) → newer_in table.new.items j ≡ newer_in table.old.items j }
    ensures older_rest { (j : ℕ) → (j ≢ end) → older_in table.new.items j ≡ older_in table.old.items j }
    ensures len { length table.new.items ≡ length table.old.items }
{
    join(table, end, end);
}

// Takes the place out from between its neighbours.
pub(crate) fn unlink(table: &mut Vec<Record>, place: u16)
    requires place_within { place < vec_len table.old }
    requires older_within { older_in table.old.items place < vec_len table.old }
    requires newer_within { newer_in table.old.items place < vec_len table.old }
    ensures links { Unlinked (newer_in table.old.items) (older_in table.old.items) place (newer_in table.new.items) (older_in table.new.items) }
    ensures keys { (j : ℕ) → key_in table.new.items j ≡ key_in table.old.items j }
    ensures len { length table.new.items ≡ length table.old.items }
{
    let Record { older, newer, .. } = table[usize::from(place)];
    join(table, older, newer);
}

// Puts the place between the end of a ring and the place before it.
pub(crate) fn link_before(table: &mut Vec<Record>, end: u16, place: u16)
    requires place_within { place < vec_len table.old }
    requires end_within { end < vec_len table.old }
    requires older_within { older_in table.old.items end < vec_len table.old }
    ensures links { Linked (newer_in table.old.items) (older_in table.old.items) end place (newer_in table.new.items) (older_in table.new.items) }
    ensures keys { (j : ℕ) → key_in table.new.items j ≡ key_in table.old.items j }
    ensures len { length table.new.items ≡ length table.old.items }
{
    let last = table[usize::from(end)].older;
    join(table, last, place);
    join(table, place, end);
}
