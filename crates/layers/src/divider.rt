//! Two backends side by side: even pools in the first, odd pools in the second.
ghost use Rattle.std.specs.Prelude.{◌≡◌, true, ◌&&◌};
ghost use Rattle.std.proofs.Common.{sym, subst};
ghost use Rattle.page.specs.Counts.{count_of};
ghost use Rattle.backend.specs.Meaning.{New};
ghost use Rattle.layers.specs.Divider.{divider_rules, divider_state};
ghost use Rattle.layers.specs.Sides.{divider_keeps};
ghost use Rattle.std.proofs.lemmas.Bool.{and_from};
ghost use Rattle.backend.specs.States.{View};
ghost use Rattle.backend.specs.Codec.{decode_encode};

use backend::{Account, Backend, Refusal};
use page::{Count, Key};

/// Keeps the pages of even pools in one backend and those of odd pools in another.
#[derive(Drop)]
pub struct Divider<A, B> {
    account: Account,
    first: A,
    second: B,
}

impl<A: Backend, B: Backend> Divider<A, B> {
    /// A divider with this label over a backend for even pools and one for odd pools.
    pub fn new(label: u32, first: A, second: B) -> Divider<A, B>
        ensures label { result.account.label ≡ label }
        ensures offers { result.account.offers ≡ count_of 0 }
        ensures first { result.first ≡ first }
        ensures second { result.second ≡ second }
        ensures new { New A.Backend.rules (A.Backend.state first) → New B.Backend.rules (B.Backend.state second) → New (divider_rules A.Backend.rules B.Backend.rules) (divider_state A.Backend.state B.Backend.state result) }
    {
        Divider {
            account: Account::new(label),
            first,
            second,
        }
    }

    /// The backend of odd pools.
    pub fn second(&self) -> &B
        ensures { result.now ≡ self.now.second }
    {
        &self.second
    }

    /// Gives the two backends back.
    pub fn into_sides(self) -> (A, B)
        ensures first { result.0 ≡ self.first }
        ensures second { result.1 ≡ self.second }
    {
        let Divider { first, second, .. } = self;
        (first, second)
    }
}

// Each call chooses its side itself: the sides are of two types, and the gate refuses a function that hands out a `dyn`.
impl<A: Backend, B: Backend> Backend for Divider<A, B> {
    ghost state = { divider_state A.Backend.state B.Backend.state };

    ghost rules = { divider_rules A.Backend.rules B.Backend.rules };

    ghost keeps = { divider_keeps A.Backend.rules B.Backend.rules A.Backend.keeps B.Backend.keeps };

    ghost valid = { λ b.
        subst (λ (v : View). (A.Backend.rules.valid v.first && B.Backend.rules.valid v.second) ≡ true) (sym (decode_encode _))
        (and_from _ _ (A.Backend.valid b.first) (B.Backend.valid b.second)) };

    fn put(&mut self, key: Key, page: &[u8]) -> Result<(), Refusal> {
        self.account.offer(key, page)?;
        if key.is_ephemeral() {
            self.first.put(key, page)
        } else {
            self.second.put(key, page)
        }
    }

    fn get(&mut self, key: Key, out: &mut [u8]) -> Result<bool, Refusal> {
        self.account.check(key, out)?;
        if key.is_ephemeral() {
            self.first.get(key, out)
        } else {
            self.second.get(key, out)
        }
    }

    fn drop_page(&mut self, key: Key) {
        if key.is_ephemeral() {
            self.first.drop_page(key)
        } else {
            self.second.drop_page(key)
        }
    }

    fn drop_object(&mut self, key: Key) {
        if key.is_ephemeral() {
            self.first.drop_object(key)
        } else {
            self.second.drop_object(key)
        }
    }

    fn drop_pool(&mut self, key: Key) {
        if key.is_ephemeral() {
            self.first.drop_pool(key)
        } else {
            self.second.drop_pool(key)
        }
    }

    fn holds(&mut self, key: Key) -> bool {
        if key.is_ephemeral() {
            self.first.holds(key)
        } else {
            self.second.holds(key)
        }
    }

    fn pool_pages(&mut self, pool: u8) -> u32 {
        if pool % 2 == 0 {
            self.first.pool_pages(pool)
        } else {
            self.second.pool_pages(pool)
        }
    }

    fn offers(&self) -> Count {
        self.account.offers()
    }
}
