//! The contents themselves.
ghost use Rattle.page.specs.Memory.{area_of};
ghost use Rattle.contents.specs.Records.{users_in, fingerprints_in};
ghost use Rattle.contents.specs.Whole.{Whole};

use super::records::ContentRecord;
use page::PageMemory;

/// Different pages, each stored once with a count of its users, in memory that is given at making.
#[derive(Drop)]
pub struct Contents {
    // the record and the page of content i lie at place i. Two areas, since callers give records and page bytes apart.
    pub(crate) records: Vec<ContentRecord>,
    pub(crate) memory: PageMemory,
    // how many contents have users, counted as they come and go, so that a question takes no pass over the records
    pub(crate) in_use: usize,
    ghost whole: { ∥ Whole (users_in records.items) (fingerprints_in records.items) (area_of memory) in_use ∥₁ },
}
