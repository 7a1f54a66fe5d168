//! The way down to a key.
ghost use Rattle.std.specs.Prelude.{◌≡◌, ℕ, ◌+◌, ◌-◌, ◌*◌, ◌/◌, ◌%◌, ◌^◌, ◌<◌, ◌≤◌, false, length, vec_len, MatchOption};
ghost use Rattle.index.specs.Links.{up};
ghost use Rattle.index.specs.Slots.{mark_in};
ghost use Rattle.index.specs.Keys.{shares};
ghost use Rattle.index.specs.Sound.{Sound, heads_of};
ghost use Rattle.index.specs.Filing.{keys_of, slots_of};
ghost use Rattle.index.specs.Descents.{Descended};

use super::tree::Tree;

// The path of the slot of key 0.
const FILED: u64 = 0x1_0000_0000;

// An item of the tree, `height` steps above a slot: a slot has height 0, the root has 8. No enum of slot and node: the height is
// what the way up and down counts by, and a slot is no more than the item where it ends.
#[derive(Clone, Copy)]
pub(crate) struct End {
    pub item: u32,
    pub height: u32,
}

// The path of the item that is `height` steps above the slot of `key`.
pub(crate) fn path_above(key: u32, height: u32) -> u64
    requires { height ≤ 8 }
    ensures { result ≡ up height (2 ^ 32 + key) }
{
    (FILED + u64::from(key)) >> (4 * height)
}

// The last step to the item that is `height` steps above the slot of `key`.
pub(crate) fn step(key: u32, height: u32) -> usize
    requires { height ≤ 8 }
    ensures { result ≡ up height (2 ^ 32 + key) % 16 }
{
    (path_above(key, height) & 15) as usize
}

impl<R: Copy> Tree<R> {
    // The last item on the way to the key: its slot, or the node at which there is no next step.
    pub(crate) fn descend(&self, key: u32) -> End
        requires { Sound self.now 0 }
        ensures { Descended self.now.nodes.items (heads_of self.now) key result.item result.height }
    {
        let mut item = 0;
        if self.nodes.len() == 0 {
            return End { item, height: 8 };
        }
        for height in (0..8).rev() {
            let next = self.nodes[item as usize].children.child(step(key, height));
            if next == 0 {
                return End {
                    item,
                    height: height + 1,
                };
            }
            item = next;
        }
        End { item, height: 0 }
    }

    // The slot of the key.
    pub(crate) fn find(&self, key: u32) -> Option<u32>
        requires { Sound self.now 0 }
        ensures { MatchOption result (shares 0 key (keys_of self.now) ≡ false) (λ p. (p < slots_of self.now) × (mark_in (heads_of self.now) p ≡ 2 ^ 32 + key)) }
    {
        let end = self.descend(key);
        if end.height > 0 {
            return None;
        }
        Some(end.item - self.nodes.len() as u32)
    }
}
