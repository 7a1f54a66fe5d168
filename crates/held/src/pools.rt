//! How many held keys the pools have.
ghost use Rattle.std.specs.Prelude.{◌≡◌, ℕ, ◌+◌, ◌*◌, ◌^◌, ◌<◌, ◌≤◌, length, MatchOption, slice_index};
ghost use Rattle.backend.specs.Victims.{pool_size};
ghost use Rattle.held.specs.Holdings.{keys};
ghost use Rattle.held.specs.Pools.{between};
ghost use Rattle.held.specs.View.{holdings};

use crate::held::Held;
use page::Key;

impl Held {
    // The first held key from `from` on that is below `end`.
    fn first_between(&self, from: u64, end: u64) -> Option<u64>
        requires { end ≤ 2 ^ 32 }
        ensures { MatchOption result (between (keys (holdings self.now)) from end ≡ 0) (λ k. (from ≤ k) × (k < end) × (between (keys (holdings self.now)) from end ≡ 1 + between (keys (holdings self.now)) (k + 1) end)) }
    {
        if from >= end {
            return None;
        }
        let key = self.first_from(Key::from(from as u32))?;
        let number = u64::from(u32::from(key));
        if number < end { Some(number) } else { None }
    }

    /// How many held keys are of the pool, found from key to key in the index.
    pub fn pool_count(&self, pool: u8) -> u32
        ensures { result ≡ pool_size (keys (holdings self.now)) pool }
    {
        if pool > 15 {
            return 0;
        }
        let mut from = u64::from(pool) << 28;
        let end = from + (1 << 28);
        let mut count = 0;
        // an iterator of its own for this one count would be longer than the loop
        while let Some(key) = self.first_between(from, end) {
            count += 1;
            from = key + 1;
        }
        count
    }

    // How many held keys each pool has.
    pub(crate) fn pool_sizes(&self) -> [u16; 16]
        ensures { (p : ℕ) → p < 16 → slice_index result p ≡ pool_size (keys (holdings self.now)) p }
    {
        let mut sizes = [0; 16];
        for key in self.keys() {
            sizes[usize::from(key.pool())] += 1;
        }
        sizes
    }
}
