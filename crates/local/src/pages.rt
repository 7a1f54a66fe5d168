//! Where the local store keeps its pages.
ghost use Rattle.std.specs.Prelude.{◌≤◌};
ghost use Rattle.held.specs.View.{size_of};
ghost use Rattle.page.specs.Memory.{area_of, pages_in};

use held::Held;
use page::PageMemory;

/// Held pages, each at a place of its own.
#[derive(Drop)]
pub struct LocalPages {
    pub(crate) held: Held,
    pub(crate) memory: PageMemory,
    ghost fits: { size_of held ≤ pages_in (area_of memory) },
}
