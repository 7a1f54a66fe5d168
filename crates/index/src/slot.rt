//! A record slot: a record with what the tree keeps beside it, and what a write to one in a `Vec` leaves. As in `node.rt`
//! the writes are functions of the whole `Vec`, since each says what stays the same in all slots, and the bounds stand in each.
ghost use Rattle.std.specs.Prelude.{◌≡◌, ℕ, ◌+◌, ◌-◌, ◌*◌, ◌/◌, ◌%◌, ◌^◌, ◌<◌, ◌≤◌, length, vec_len, ◌≢◌, slice_set};
ghost use Rattle.index.specs.Slots.{blank_slot, heads, records, key_mark, mark_in, slot_parent_in, slot_free_in};

// What the tree keeps beside a record.
#[derive(Clone, Copy)]
pub struct Head {
    // none in a free slot
    pub(crate) key: Option<u32>,
    // the node whose child it is
    pub(crate) parent: u32,
    // entry i of the stack of free slots stands in slot i, free or not
    pub(crate) free: u32,
}

/// Memory for one record.
#[derive(Clone, Copy)]
pub struct Slot<R> {
    pub(crate) head: Head,
    pub(crate) value: R,
}

impl<R: Copy> Slot<R> {
    /// What memory for an index is filled with: `vec![in heap; Slot::new(blank); n]`.
    pub fn new(blank: R) -> Slot<R>
        ensures { result ≡ blank_slot blank }
    {
        Slot {
            head: Head {
                key: None,
                parent: 0,
                free: 0,
            },
            value: blank,
        }
    }
}

pub(crate) fn set_key<R: Copy>(slots: &mut Vec<Slot<R>>, slot: u32, key: Option<u32>, parent: u32)
    requires slot_within { slot < length (heads slots.old.items) }
    ensures mark_here { mark_in (heads slots.new.items) slot ≡ key_mark key }
    ensures mark_rest { (j : ℕ) → (j ≢ slot) → mark_in (heads slots.new.items) j ≡ mark_in (heads slots.old.items) j }
    ensures here { slot_parent_in (heads slots.new.items) slot ≡ parent }
    ensures rest { (j : ℕ) → (j ≢ slot) → slot_parent_in (heads slots.new.items) j ≡ slot_parent_in (heads slots.old.items) j }
    ensures frees { (j : ℕ) → slot_free_in (heads slots.new.items) j ≡ slot_free_in (heads slots.old.items) j }
    ensures len { length (heads slots.new.items) ≡ length (heads slots.old.items) }
    ensures values { records slots.new.items ≡ records slots.old.items }
{
    let head = &mut slots[slot as usize].head;
    head.key = key;
    head.parent = parent;
}

pub(crate) fn set_free_slot<R: Copy>(slots: &mut Vec<Slot<R>>, at: usize, slot: u32)
    requires at_within { at < length (heads slots.old.items) }
    ensures marks { (j : ℕ) → mark_in (heads slots.new.items) j ≡ mark_in (heads slots.old.items) j }
    ensures parents { (j : ℕ) → slot_parent_in (heads slots.new.items) j ≡ slot_parent_in (heads slots.old.items) j }
    ensures here { slot_free_in (heads slots.new.items) at ≡ slot }
    ensures rest { (j : ℕ) → (j ≢ at) → slot_free_in (heads slots.new.items) j ≡ slot_free_in (heads slots.old.items) j }
    ensures len { length (heads slots.new.items) ≡ length (heads slots.old.items) }
    ensures values { records slots.new.items ≡ records slots.old.items }
{
    slots[at].head.free = slot;
}

pub(crate) fn set_record<R: Copy>(slots: &mut Vec<Slot<R>>, slot: u32, value: R)
    requires slot_within { slot < length (heads slots.old.items) }
    ensures heads { heads slots.new.items ≡ heads slots.old.items }
    ensures values { records slots.new.items ≡ slice_set (records slots.old.items) slot value }
{
    slots[slot as usize].value = value;
}
