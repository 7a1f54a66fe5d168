//! One pass over a guest's frames: the hand, and emptying.
ghost use Rattle.std.specs.Prelude.{◌≡◌, ◌<◌, map, length};
ghost use Rattle.frames.specs.Clock.{next_place, sweep};
ghost use Rattle.frames.specs.Held.{pages_in, marks_in, dirty_in, emptied_frame};

use super::pages::PageSet;
use super::states::{Frame, FrameEvent};

// The place after `i` in a ring of `count`.
pub(crate) fn next_place(i: usize, count: usize) -> usize
    requires { i < count }
    ensures { result ≡ next_place count i }
{
    if i + 1 < count { i + 1 } else { 0 }
}

// The frame that the hand stops at. The marks that it passes are cleared.
pub(crate) fn sweep_from(frames: &mut [Frame], hand: usize) -> usize
    requires { hand < length frames.old }
    ensures taken { result ≡ (sweep (length frames.old) (pages_in frames.old) (marks_in frames.old) hand).1 }
    ensures marks { marks_in frames.new ≡ (sweep (length frames.old) (pages_in frames.old) (marks_in frames.old) hand).0 }
    ensures pages { pages_in frames.new ≡ pages_in frames.old }
    ensures dirty { dirty_in frames.new ≡ dirty_in frames.old }
    ensures within { result < length frames.old }
{
    let mut place = hand;
    // A `loop` that yields the frame by `break`, and no `for`: the hand goes round until a frame stops it.
    'turn: loop {
        if !frames[place].is_passed() {
            break 'turn place;
        }
        frames[place].marked = false;
        place = next_place(place, frames.len());
    }
}

// Empties each frame but those that hold a page that is not in the set.
pub(crate) fn empty_pages(frames: &mut [Frame], pages: PageSet)
    ensures { frames.new ≡ map (emptied_frame pages) frames.old }
{
    for frame in frames.iter_mut() {
        if !frame.stays(pages) {
            frame.apply(FrameEvent::Emptying);
        }
    }
}
