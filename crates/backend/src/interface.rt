//! The interface of a backend.
ghost use Rattle.std.specs.Prelude.{◌≡◌, ℕ, List, is_some};
ghost use Rattle.backend.specs.Rules.{Rules, Valid, held, pool_pages};
ghost use Rattle.backend.specs.Meaning.{Meaning};
ghost use Rattle.backend.specs.Outcomes.{PutOutcome, GetOutcome};

use crate::refusals::Refusal;
use page::{Count, Key};

/// A store of pages, at most one under each key.
pub trait Backend {
    // All that a caller can learn of it.
    ghost state: { Self → List ℕ };

    // How it answers, and what state comes next.
    ghost rules: { Rules };

    /// Offers a page under a key. Refused, the key holds nothing.
    fn put(&mut self, key: Key, page: &[u8]) -> Result<(), Refusal>
        ensures { PutOutcome rules (state self.old) key page.now result (state self.new) };

    // A flag, and no `Option` of a page: the page goes into the buffer that the caller hands over.
    /// Copies the page under a key out and says whether there was one. An ephemeral page goes.
    fn get(&mut self, key: Key, out: &mut [u8]) -> Result<bool, Refusal>
        ensures { GetOutcome rules (state self.old) key out.old result (state self.new) out.new };

    // Three drops, and not one with a reach: the rules have each as a call of its own.
    /// Lets the page under a key go.
    fn drop_page(&mut self, key: Key)
        ensures { state self.new ≡ rules.drop_page_next (state self.old) key.number };

    /// Lets all pages of a key's object go.
    fn drop_object(&mut self, key: Key)
        ensures { state self.new ≡ rules.drop_object_next (state self.old) key.number };

    /// Lets all pages of a key's pool go.
    fn drop_pool(&mut self, key: Key)
        ensures { state self.new ≡ rules.drop_pool_next (state self.old) key.number };

    /// Whether a key holds a page.
    fn holds(&mut self, key: Key) -> bool
        ensures answer { result ≡ is_some (held rules (state self.old) key.number) }
        ensures same { state self.new ≡ state self.old };

    /// How many pages a pool holds; a pool above 15 holds none.
    fn pool_pages(&mut self, pool: u8) -> u32
        ensures answer { result ≡ pool_pages rules (state self.old) pool }
        ensures same { state self.new ≡ state self.old };

    /// How many pages were offered.
    fn offers(&self) -> Count
        ensures { result ≡ rules.offers (state self.now) };

    ghost keeps: { Meaning rules };

    ghost valid: { (b : Self) → Valid rules (state b) };
}
