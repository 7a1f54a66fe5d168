//! The table of a guest's frames.
ghost use Rattle.std.specs.Prelude.{◌≡◌, ◌-◌, ◌≤◌, length};

use super::states::Frame;

/// The most frames that a guest can have.
pub const MOST_FRAMES: usize = 16;

/// A guest's frames and its hand, which stands on one of them.
#[derive(Clone, Copy)]
pub struct Frames {
    // An array and how many of its frames are used, since a guest's frames are Copy and an ArrayVec is not.
    pub(crate) count: usize,
    pub(crate) table: [Frame; MOST_FRAMES],
    pub(crate) hand: usize,
    ghost full: { length table ≡ 16 },
    ghost few: { count ≤ 16 },
    ghost within: { hand ≤ count - 1 },
}
