//! A page moved from one key to another, on any backend.
ghost use Rattle.backend.specs.Moves.{Moved};

use crate::interface::Backend;
use crate::refusals::Refusal;
use page::{Key, PAGE_BYTES};

/// Moves the page under one key to another and says whether there was one. Refused, the page is lost.
// The page leaves its old key first: a drop after the put could let the page go under its new key.
pub fn move_page<B: Backend>(backend: &mut B, from: Key, to: Key) -> Result<bool, Refusal>
    ensures { Moved B.Backend.rules (B.Backend.state backend.old) (B.Backend.state backend.new) from.number to.number result }
{
    let mut page = [0; PAGE_BYTES];
    if !backend.get(from, &mut page)? {
        return Ok(false);
    }
    backend.drop_page(from);
    backend.put(to, &page)?;
    Ok(true)
}
