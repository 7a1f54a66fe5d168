//! The backend that keeps nothing.
ghost use Rattle.std.specs.Prelude.{◌≡◌};
ghost use Rattle.backend.specs.Meaning.{New};
ghost use Rattle.backend.specs.Nothing.{nothing_state, nothing_rules};
ghost use Rattle.std.proofs.Common.{rules};
ghost use Rattle.backend.specs.Codec.{decode_encode};

use crate::account::Account;
use crate::interface::Backend;
use crate::refusals::{Cause, Refusal};
use page::{Count, Key};

/// Holds no page and refuses every put.
#[derive(Drop)]
pub struct Nothing {
    account: Account,
}

impl Nothing {
    /// A new backend with this label.
    pub fn new(label: u32) -> Nothing
        ensures new { New nothing_rules (nothing_state result) }
        ensures label { nothing_rules.label (nothing_state result) ≡ label }
    {
        Nothing {
            account: Account::new(label),
        }
    }
}

impl Backend for Nothing {
    ghost state = { nothing_state };

    ghost rules = { nothing_rules };

    ghost keeps = { Prim.search (rules, decode_encode) };

    ghost valid = { Prim.search rules };

    fn put(&mut self, key: Key, page: &[u8]) -> Result<(), Refusal> {
        self.account.offer(key, page)?;
        Err(self.account.refusal(Cause::NoPlace, key))
    }

    fn get(&mut self, key: Key, out: &mut [u8]) -> Result<bool, Refusal> {
        self.account.check(key, out)?;
        Ok(false)
    }

    fn drop_page(&mut self, _key: Key) {}

    fn drop_object(&mut self, _key: Key) {}

    fn drop_pool(&mut self, _key: Key) {}

    fn holds(&mut self, _key: Key) -> bool {
        false
    }

    fn pool_pages(&mut self, _pool: u8) -> u32 {
        0
    }

    fn offers(&self) -> Count {
        self.account.offers()
    }
}
