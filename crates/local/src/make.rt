//! Making a local backend.
ghost use Rattle.std.specs.Prelude.{length, IfOk};
ghost use Rattle.local.specs.Making.{NewLocal};

use crate::pages::LocalPages;
use index::IndexMemory;
use std::alloc::{AllocError, Global};
use store::Store;

/// The local backend.
pub type Local = Store<LocalPages>;

/// A new local backend with this label over the page bytes and the index's memory given. Only want of memory for the
/// order of the pages refuses it.
pub fn new_local(
    heap: Global,
    label: u32,
    bytes: Vec<u8>,
    index: IndexMemory<u16>,
) -> Result<Local, AllocError>
    ensures { IfOk result (λ b. NewLocal label bytes.items (length index.slots.items) (length index.nodes.items) b) }
{
    let pages = LocalPages::new(heap, bytes, index)?;
    Ok(Store::new(label, pages))
}
