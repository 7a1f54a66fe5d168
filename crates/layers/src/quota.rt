//! A limit on the pages that each pool holds in the backend below.
ghost use Rattle.std.specs.Prelude.{◌≡◌, ℕ, List};
ghost use Rattle.std.proofs.Common.{sym, ap, subst};
ghost use Rattle.page.specs.Counts.{count_of};
ghost use Rattle.backend.specs.Meaning.{New};
ghost use Rattle.layers.specs.Quota.{quota_rules, quota_state, full};
ghost use Rattle.layers.specs.Limits.{quota_keeps};
ghost use Rattle.backend.specs.Rules.{Valid};
ghost use Rattle.backend.specs.States.{View};
ghost use Rattle.backend.specs.Codec.{decode_encode};

use backend::{Account, Backend, Cause, Refusal};
use page::{Count, Key};

/// Refuses a page that its pool does not hold yet where the pool holds its limit or more.
#[derive(Drop)]
pub struct Quota<B> {
    account: Account,
    limits: [u32; 16],
    below: B,
}

impl<B: Backend> Quota<B> {
    /// A quota with this label and a limit for each pool, over a backend.
    pub fn new(label: u32, limits: [u32; 16], below: B) -> Quota<B>
        ensures label { result.account.label ≡ label }
        ensures offers { result.account.offers ≡ count_of 0 }
        ensures limits { result.limits ≡ limits }
        ensures below { result.below ≡ below }
        ensures new { New B.Backend.rules (B.Backend.state below) → New (quota_rules B.Backend.rules) (quota_state B.Backend.state result) }
    {
        Quota {
            account: Account::new(label),
            limits,
            below,
        }
    }

    /// Gives the backend below back.
    pub fn into_below(self) -> B
        ensures { result ≡ self.below }
    {
        let Quota { below, .. } = self;
        below
    }

    // Whether the key is not held and its pool holds its limit or more.
    fn at_limit(&mut self, key: Key) -> bool
        ensures answer { result ≡ full B.Backend.rules self.old.limits (B.Backend.state self.old.below) key.number }
        ensures below { B.Backend.state self.new.below ≡ B.Backend.state self.old.below }
        ensures account { self.new.account ≡ self.old.account }
        ensures limits { self.new.limits ≡ self.old.limits }
    {
        if self.below.holds(key) {
            return false;
        }
        let pool = key.pool();
        self.limits[usize::from(pool)] <= self.below.pool_pages(pool)
    }
}

impl<B: Backend> Backend for Quota<B> {
    ghost state = { quota_state B.Backend.state };

    ghost rules = { quota_rules B.Backend.rules };

    ghost keeps = { quota_keeps B.Backend.rules B.Backend.keeps };

    ghost valid = { λ b.
        subst (λ (t : List ℕ). Valid B.Backend.rules t) (sym (ap (λ (v : View). v.second) (decode_encode _)))
        (B.Backend.valid b.below) };

    fn put(&mut self, key: Key, page: &[u8]) -> Result<(), Refusal> {
        self.account.offer(key, page)?;
        if self.at_limit(key) {
            return Err(self.account.refusal(Cause::OverLimit, key));
        }
        self.below.put(key, page)
    }

    fn get(&mut self, key: Key, out: &mut [u8]) -> Result<bool, Refusal> {
        self.account.check(key, out)?;
        self.below.get(key, out)
    }

    fn drop_page(&mut self, key: Key) {
        self.below.drop_page(key)
    }

    fn drop_object(&mut self, key: Key) {
        self.below.drop_object(key)
    }

    fn drop_pool(&mut self, key: Key) {
        self.below.drop_pool(key)
    }

    fn holds(&mut self, key: Key) -> bool {
        self.below.holds(key)
    }

    fn pool_pages(&mut self, pool: u8) -> u32 {
        self.below.pool_pages(pool)
    }

    fn offers(&self) -> Count {
        self.account.offers()
    }
}
