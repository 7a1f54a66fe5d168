//! The key that gives way.
ghost use Rattle.std.specs.Prelude.{◌≡◌, slice_index};
ghost use Rattle.backend.specs.Victims.{oldest_of, victim};
ghost use Rattle.held.specs.Holdings.{keys, number_of};
ghost use Rattle.held.specs.Pools.{fullest_of};
ghost use Rattle.held.specs.View.{holdings};

use crate::held::Held;
use page::Key;

// The even pool of the greatest size, and of several the lowest.
fn fullest_even(sizes: &[u16; 16]) -> u8
    ensures { result ≡ fullest_of (λ p. slice_index sizes.now p) 7 }
{
    let mut best = 0;
    // a `for` with the best so far: of several pools the lowest is wanted, and `max_by_key` gives the last
    for half in 0..7u8 {
        let pool = 2 * half + 2;
        if sizes[usize::from(best)] < sizes[usize::from(pool)] {
            best = pool;
        }
    }
    best
}

impl Held {
    // The oldest held key of the pool.
    fn oldest_of(&self, pool: u8) -> Option<Key>
        ensures { number_of result ≡ oldest_of pool (keys (holdings self.now)) }
    {
        self.keys().find(|key| key.pool() == pool)
    }

    /// The key that gives way: the oldest of the even pool that holds most keys, of several such pools the lowest. None where no even
    /// pool holds one.
    pub fn victim(&self) -> Option<Key>
        ensures { number_of result ≡ victim (keys (holdings self.now)) }
    {
        self.oldest_of(fullest_even(&self.pool_sizes()))
    }
}
