//! Making a guest's frames, questions about them, and what happens to single frames and to sets of pages.
ghost use Rattle.std.specs.Prelude.{◌≡◌, min, false, length, replicate, if◌then◌else◌, Some, None, slice_index_or, slice_set};
ghost use Rattle.frames.specs.Clock.{empty_clock, emptied, filled, find, hit, lowered, put_in};
ghost use Rattle.frames.specs.Held.{blank, clock, dirties, frames_of, hit_dirty, is_write};
ghost use Rattle.frames.specs.Pages.{in_set};
ghost use Rattle.frames.specs.States.{after_event};

use super::hand::empty_pages;
use super::pages::{Page, PageSet};
use super::states::{Access, Frame, FrameEvent};
use super::table::{Frames, MOST_FRAMES};

impl Frames {
    /// So many empty frames, 16 at most, with the hand on frame 0.
    pub fn new(frames: usize) -> Frames
        ensures clock { clock result ≡ empty_clock (min frames 16) 0 }
        ensures dirty { dirties result ≡ replicate (min frames 16) false }
    {
        Frames {
            count: frames.min(MOST_FRAMES),
            table: [Frame::VACANT; MOST_FRAMES],
            hand: 0,
        }
    }

    /// How many frames there are.
    pub fn count(&self) -> usize
        ensures { result ≡ length (clock self.now).pages }
    {
        self.count
    }

    /// The frame that the hand stands on.
    pub fn hand(&self) -> usize
        ensures { result ≡ (clock self.now).hand }
    {
        self.hand
    }

    /// The frame that holds a page.
    pub fn find(&self, page: Page) -> Option<usize>
        ensures { result ≡ find page (clock self.now).pages }
    {
        self.frames().iter().position(|frame| frame.holds(page))
    }

    // The frames that the guest has, of those that there is room for.
    fn frames(&self) -> &[Frame]
        ensures { result.now ≡ frames_of self.now }
    {
        &self.table[..self.count]
    }

    // A frame, or a vacant one where there is no such frame.
    fn at(&self, frame: usize) -> Frame
        ensures { result ≡ slice_index_or (frames_of self.now) frame blank }
    {
        self.frames().get(frame).copied().unwrap_or(Frame::VACANT)
    }

    /// The page in a frame.
    pub fn page_in(&self, frame: usize) -> Option<Page>
        ensures { result ≡ slice_index_or (clock self.now).pages frame None }
    {
        self.at(frame).page()
    }

    /// Whether a frame is marked.
    pub fn is_marked(&self, frame: usize) -> bool
        ensures { result ≡ slice_index_or (clock self.now).marks frame false }
    {
        self.at(frame).marked
    }

    /// Whether the page in a frame is dirty.
    pub fn is_dirty(&self, frame: usize) -> bool
        ensures { result ≡ slice_index_or (dirties self.now) frame false }
    {
        self.at(frame).is_dirty()
    }

    // Applies an event to a frame, if there is such a frame.
    fn apply(&mut self, place: usize, event: FrameEvent)
        ensures frames { frames_of self.new ≡ slice_set (frames_of self.old) place (after_event (slice_index_or (frames_of self.old) place blank) event) }
        ensures hand { self.new.hand ≡ self.old.hand }
    {
        if place < self.count {
            self.table[place].apply(event);
        }
    }

    /// An access to the page in a frame, if it holds one.
    pub fn touch(&mut self, frame: usize, kind: Access)
        ensures clock { clock self.new ≡ (if filled (slice_index_or (clock self.old).pages frame None) then hit (clock self.old) frame else clock self.old) }
        ensures dirty { dirties self.new ≡ (if filled (slice_index_or (clock self.old).pages frame None) then hit_dirty (dirties self.old) frame kind else dirties self.old) }
    {
        if let Some(held) = self.page_in(frame) {
            self.apply(frame, kind.event(held));
        }
    }

    /// Fills a frame with a page by an access to it. What the frame held before is gone.
    pub fn fill(&mut self, frame: usize, page: Page, kind: Access)
        ensures clock { clock self.new ≡ put_in (clock self.old) frame (Some page) }
        ensures dirty { dirties self.new ≡ slice_set (dirties self.old) frame (is_write kind) }
    {
        self.empty(frame);
        self.apply(frame, kind.event(page));
    }

    /// The page in a frame has been written back: it is dirty no more.
    pub fn write_back(&mut self, frame: usize)
        ensures clock { clock self.new ≡ clock self.old }
        ensures dirty { dirties self.new ≡ slice_set (dirties self.old) frame false }
    {
        self.apply(frame, FrameEvent::WriteBack);
    }

    /// Empties a frame.
    pub fn empty(&mut self, frame: usize)
        ensures clock { clock self.new ≡ put_in (clock self.old) frame None }
        ensures dirty { dirties self.new ≡ slice_set (dirties self.old) frame false }
    {
        self.apply(frame, FrameEvent::Emptying);
    }

    /// Empties each frame whose page is in the set.
    pub fn empty_set(&mut self, pages: PageSet)
        ensures clock { clock self.new ≡ emptied (in_set pages) (clock self.old) }
        ensures dirty { dirties self.new ≡ lowered (in_set pages) (clock self.old).pages (dirties self.old) }
    {
        empty_pages(&mut self.table[0..self.count], pages);
    }

    /// Empties every frame. The hand stays.
    pub fn empty_all(&mut self)
        ensures clock { clock self.new ≡ empty_clock (length (clock self.old).pages) (clock self.old).hand }
        ensures dirty { dirties self.new ≡ replicate (length (clock self.old).pages) false }
    {
        self.empty_set(PageSet::All);
    }
}
