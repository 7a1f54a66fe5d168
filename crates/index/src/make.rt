//! Making a tree.
ghost use Rattle.std.specs.Prelude.{◌≡◌, ℕ, ◌+◌, ◌-◌, ◌*◌, ◌/◌, ◌%◌, ◌^◌, ◌<◌, ◌≤◌, min, [], length, vec_len, ◌≢◌};
ghost use Rattle.index.specs.Nodes.{path_in, child_in, free_in};
ghost use Rattle.index.specs.Slots.{heads, mark_in, slot_free_in};
ghost use Rattle.index.specs.Filing.{Whole, keys_of, nodes_of, slots_of};

use super::memory::IndexMemory;
use super::node::{Node, set_path};
use super::slot::{Head, Slot};
use super::tree::Tree;

// The most nodes, and the most slots, that a tree uses: their numbers together fit 32 bits.
pub const LIMIT: usize = 0x7fff_ffff;

// Frees every node: entry i of the stack of free nodes is node i + 1, and the last entry is none.
fn clear_nodes(nodes: &mut Vec<Node>)
    requires { vec_len nodes.old < 2 ^ 31 }
    ensures paths { (j : ℕ) → j < length nodes.new.items → path_in nodes.new.items j ≡ 0 }
    ensures children { (j c : ℕ) → j < length nodes.new.items → c < 16 → child_in nodes.new.items j c ≡ 0 }
    ensures frees { (j : ℕ) → j < length nodes.new.items → free_in nodes.new.items j ≡ j + 1 }
    ensures len { length nodes.new.items ≡ length nodes.old.items }
{
    for (i, node) in nodes.iter_mut().enumerate() {
        *node = Node {
            free: i as u32 + 1,
            ..Node::BLANK
        };
    }
}

// A loop of its own beside that of the nodes: a slot keeps its record, and one function for both would need a closure for each.
// Frees every slot: entry i of the stack of free slots is slot i.
fn clear_slots<R: Copy>(slots: &mut Vec<Slot<R>>)
    requires { length (heads slots.old.items) < 2 ^ 31 }
    ensures marks { (j : ℕ) → j < length (heads slots.new.items) → mark_in (heads slots.new.items) j ≡ 0 }
    ensures frees { (j : ℕ) → j < length (heads slots.new.items) → slot_free_in (heads slots.new.items) j ≡ j }
    ensures len { length (heads slots.new.items) ≡ length (heads slots.old.items) }
{
    for (i, slot) in slots.iter_mut().enumerate() {
        slot.head = Head {
            key: None,
            parent: 0,
            free: i as u32,
        };
    }
}

impl<R: Copy> Tree<R> {
    // An empty tree over the memory given, of which it uses the first `LIMIT`, and lets go the others.
    pub(crate) fn new(memory: IndexMemory<R>) -> Tree<R>
        ensures whole { Whole result }
        ensures none { keys_of result ≡ [] }
        ensures nodes { nodes_of result ≡ min (length memory.nodes.items) (2 ^ 31 - 1) }
        ensures slots { slots_of result ≡ min (length memory.slots.items) (2 ^ 31 - 1) }
    {
        let IndexMemory {
            mut nodes,
            mut slots,
        } = memory;
        nodes.truncate(LIMIT);
        slots.truncate(LIMIT);
        clear_nodes(&mut nodes);
        clear_slots(&mut slots);
        let n = nodes.len();
        let vacant = slots.len();
        let mut unused = 0;
        if n > 0 {
            set_path(&mut nodes, 0, 1, 0);
            unused = n - 1;
        }
        Tree {
            nodes,
            slots,
            unused,
            vacant,
        }
    }
}
