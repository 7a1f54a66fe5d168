//! Making a deduplicating backend.
ghost use Rattle.std.specs.Prelude.{length, IfOk};
ghost use Rattle.dedup.specs.Making.{NewDedup};

use crate::pages::SharedPages;
use contents::ContentsMemory;
use index::IndexMemory;
use std::alloc::{AllocError, Global};
use store::Store;

/// The deduplicating backend.
pub type Dedup = Store<SharedPages>;

/// A new deduplicating backend with this label over the memory of contents and of an index given.
/// Only want of memory for the order of the pages refuses it.
pub fn new_dedup(
    heap: Global,
    label: u32,
    contents: ContentsMemory,
    index: IndexMemory<u16>,
) -> Result<Dedup, AllocError>
    ensures { IfOk result (λ b. NewDedup label contents.bytes.items (length contents.records.items) (length index.slots.items) (length index.nodes.items) b) }
{
    let pages = SharedPages::new(heap, contents, index)?;
    Ok(Store::new(label, pages))
}
