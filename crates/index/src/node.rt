//! A node of the tree, and what a write to one in a `Vec` leaves. The writes are functions of the whole `Vec` and not methods of
//! a node, since each says what stays the same in all nodes: a method says nothing of the others, and each caller would show it.
//! That a number is one of a node stands in each contract: it is a fact of the number, which no struct round the `Vec` could keep.
ghost use Rattle.std.specs.Prelude.{◌≡◌, ℕ, ◌+◌, ◌-◌, ◌*◌, ◌/◌, ◌%◌, ◌^◌, ◌<◌, ◌≤◌, length, set, vec_len, ◌≢◌};
ghost use Rattle.index.specs.Nodes.{path_in, parent_in, child_in, free_in};

use crate::children::Children;

/// Memory for one node of the tree.
#[derive(Clone, Copy)]
pub struct Node {
    pub(crate) children: Children,
    // 0 in a free node; else a 1 and then the steps from the root to it, four bits each. No `Option`: only paths of nodes in
    // use are read, so each read would unwrap it, and a node would be longer
    pub(crate) path: u32,
    pub(crate) parent: u32,
    // entry i of the stack of free nodes stands in node i, free or not
    pub(crate) free: u32,
}

impl Node {
    /// What memory for an index is filled with: `vec![in heap; Node::BLANK; n]`.
    pub const BLANK: Node = Node {
        children: Children::NONE,
        path: 0,
        parent: 0,
        free: 0,
    };
}

// Makes `item` the child at the step.
pub(crate) fn set_child(nodes: &mut Vec<Node>, node: u32, step: usize, item: u32)
    requires node_within { node < vec_len nodes.old }
    requires step_within { step < 16 }
    requires some { item ≢ 0 }
    ensures here { child_in nodes.new.items node step ≡ item }
    ensures rest { (j d : ℕ) → ((j ≡ node) × (d ≡ step) → ⊥) → child_in nodes.new.items j d ≡ child_in nodes.old.items j d }
    ensures paths { (j : ℕ) → path_in nodes.new.items j ≡ path_in nodes.old.items j }
    ensures parents { (j : ℕ) → parent_in nodes.new.items j ≡ parent_in nodes.old.items j }
    ensures frees { (j : ℕ) → free_in nodes.new.items j ≡ free_in nodes.old.items j }
    ensures len { length nodes.new.items ≡ length nodes.old.items }
{
    nodes[node as usize].children.set(step, item);
}

// Leaves no child at the step.
pub(crate) fn clear_child(nodes: &mut Vec<Node>, node: u32, step: usize)
    requires node_within { node < vec_len nodes.old }
    requires step_within { step < 16 }
    ensures here { child_in nodes.new.items node step ≡ 0 }
    ensures rest { (j d : ℕ) → ((j ≡ node) × (d ≡ step) → ⊥) → child_in nodes.new.items j d ≡ child_in nodes.old.items j d }
    ensures paths { (j : ℕ) → path_in nodes.new.items j ≡ path_in nodes.old.items j }
    ensures parents { (j : ℕ) → parent_in nodes.new.items j ≡ parent_in nodes.old.items j }
    ensures frees { (j : ℕ) → free_in nodes.new.items j ≡ free_in nodes.old.items j }
    ensures len { length nodes.new.items ≡ length nodes.old.items }
{
    nodes[node as usize].children.clear(step);
}

pub(crate) fn set_path(nodes: &mut Vec<Node>, node: u32, path: u32, parent: u32)
    requires node_within { node < vec_len nodes.old }
    ensures children { (j d : ℕ) → child_in nodes.new.items j d ≡ child_in nodes.old.items j d }
    ensures here { path_in nodes.new.items node ≡ path }
    ensures rest { (j : ℕ) → (j ≢ node) → path_in nodes.new.items j ≡ path_in nodes.old.items j }
    ensures parent_here { parent_in nodes.new.items node ≡ parent }
    ensures parent_rest { (j : ℕ) → (j ≢ node) → parent_in nodes.new.items j ≡ parent_in nodes.old.items j }
    ensures frees { (j : ℕ) → free_in nodes.new.items j ≡ free_in nodes.old.items j }
    ensures len { length nodes.new.items ≡ length nodes.old.items }
{
    nodes[node as usize].path = path;
    nodes[node as usize].parent = parent;
}

pub(crate) fn set_free(nodes: &mut Vec<Node>, at: usize, node: u32)
    requires at_within { at < vec_len nodes.old }
    ensures children { (j d : ℕ) → child_in nodes.new.items j d ≡ child_in nodes.old.items j d }
    ensures paths { (j : ℕ) → path_in nodes.new.items j ≡ path_in nodes.old.items j }
    ensures parents { (j : ℕ) → parent_in nodes.new.items j ≡ parent_in nodes.old.items j }
    ensures here { free_in nodes.new.items at ≡ node }
    ensures rest { (j : ℕ) → (j ≢ at) → free_in nodes.new.items j ≡ free_in nodes.old.items j }
    ensures len { length nodes.new.items ≡ length nodes.old.items }
{
    nodes[at].free = node;
}
