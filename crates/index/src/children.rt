//! The children of a node.
ghost use Rattle.std.specs.Prelude.{◌≡◌, ℕ, ◌<◌, ◌≤◌, MatchOption, ◌≢◌, slice_index, slice_set};
ghost use Rattle.index.specs.Masks.{Agrees};

// The children by step: 0 for none, a node's number, or the number of nodes and a slot's number. No enum of the three: its
// number and its case would make a node almost twice as large, and at each use the height says already which case it is.
#[derive(Clone, Copy)]
pub(crate) struct Children {
    items: [u32; 16],
    // bit c is set where there is a child at step c, so that a search skips the steps with none
    mask: u32,
    ghost agrees: { ∥ Agrees mask items ∥₁ },
}

impl Children {
    pub(crate) const NONE: Children = Children {
        items: [0; 16],
        mask: 0,
    };

    pub(crate) fn child(&self, step: usize) -> u32
        requires { step < 16 }
        ensures { result ≡ slice_index self.now.items step }
    {
        self.items[step]
    }

    // Makes `item` the child at the step.
    pub(crate) fn set(&mut self, step: usize, item: u32)
        requires step_within { step < 16 }
        requires some { item ≢ 0 }
        ensures here { slice_index self.new.items step ≡ item }
        ensures items { self.new.items ≡ slice_set self.old.items step item }
    {
        self.items[step] = item;
        self.mask |= 1 << step;
    }

    // Leaves no child at the step.
    pub(crate) fn clear(&mut self, step: usize)
        requires { step < 16 }
        ensures { self.new.items ≡ slice_set self.old.items step 0 }
    {
        self.items[step] = 0;
        self.mask &= !(1 << step);
    }

    // The first step from `from` on that has a child.
    pub(crate) fn next(&self, from: usize) -> Option<usize>
        requires { from ≤ 16 }
        ensures { MatchOption result ((d : ℕ) → from ≤ d → d < 16 → slice_index self.now.items d ≡ 0)
            (λ s. (from ≤ s) × (s < 16) × ((d : ℕ) → from ≤ d → d < s → slice_index self.now.items d ≡ 0) × (slice_index self.now.items s ≢ 0)) }
    {
        let step = from + (self.mask >> from).trailing_zeros() as usize;
        if step < 16 { Some(step) } else { None }
    }
}
