//! Where the deduplicating store keeps its pages.
ghost use Rattle.std.specs.Prelude.{◌≡◌, ℕ, length, slice_index, slice_index_or};
ghost use Rattle.contents.specs.View.{users_of};
ghost use Rattle.held.specs.View.{holdings, size_of};
ghost use Rattle.dedup.specs.Shares.{contents_by, uses};

use contents::Contents;
use held::Held;

/// Held pages, of which equal ones are stored once.
#[derive(Drop)]
pub struct SharedPages {
    pub(crate) held: Held,
    pub(crate) contents: Contents,
    // the content of the key that is held at a place. Not in the table of `held`, which the local store uses too, without contents
    pub(crate) content_at: Vec<u16>,
    // a content has as many users as held keys have it, so it is free exactly when none has
    ghost counted: { (i : ℕ) → slice_index (users_of contents) i ≡ uses i (contents_by (λ p. slice_index_or content_at.items p 0) (holdings held)) },
    ghost long: { length content_at.items ≡ size_of held },
}
