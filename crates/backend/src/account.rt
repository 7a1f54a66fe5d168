//! What a part of a pile keeps of itself.
ghost use Rattle.std.specs.Prelude.{◌≡◌, if◌then◌else◌};
ghost use Rattle.page.specs.Counts.{count_of};
ghost use Rattle.backend.specs.Accounts.{checked, offered, refusal_of};
ghost use Rattle.backend.specs.Outcomes.{is_page};

use crate::refusals::{Cause, Refusal};
use page::{Count, Key, PAGE_BYTES};

/// The label by which a part refuses, and how many pages were offered to it.
#[derive(Clone, Copy, PartialEq, Eq, Debug)]
pub struct Account {
    label: u32,
    offers: Count,
}

impl Account {
    /// The account of a part to which nothing was offered.
    pub fn new(label: u32) -> Account
        ensures label { result.label ≡ label }
        ensures offers { result.offers ≡ count_of 0 }
    {
        Account {
            label,
            offers: Count::zero(),
        }
    }

    /// How many pages were offered.
    pub fn offers(&self) -> Count
        ensures { result ≡ self.now.offers }
    {
        self.offers
    }

    /// What the part answers where it refuses a call on the key.
    pub fn refusal(&self, cause: Cause, key: Key) -> Refusal
        ensures { result ≡ refusal_of self.now cause key }
    {
        Refusal {
            cause,
            key,
            label: self.label,
        }
    }

    /// Refuses a buffer that is no page.
    pub fn check(&self, key: Key, buffer: &[u8]) -> Result<(), Refusal>
        ensures { result ≡ checked self.now key buffer.now }
    {
        if buffer.len() == PAGE_BYTES {
            Ok(())
        } else {
            Err(self.refusal(Cause::NotAPage, key))
        }
    }

    /// Counts a page that is offered. What is no page is refused and not counted.
    pub fn offer(&mut self, key: Key, page: &[u8]) -> Result<(), Refusal>
        ensures answer { result ≡ checked self.old key page.now }
        ensures after { self.new ≡ (if is_page page.now then offered self.old else self.old) }
    {
        self.check(key, page)?;
        self.offers = self.offers.one_more();
        Ok(())
    }
}
