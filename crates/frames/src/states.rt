//! A frame and what happens to it.
ghost use Rattle.std.specs.Prelude.{◌≡◌, ◌&&◌};
ghost use Rattle.frames.specs.Clock.{emptied_page, filled, holds};
ghost use Rattle.frames.specs.Pages.{in_set};
ghost use Rattle.frames.specs.States.{after_event, dirty, event_of, held};

use super::pages::{Page, PageSet};

/// The page that a frame holds, if it holds one, and whether that page was written since it came or was written back.
#[derive(Clone, Copy, PartialEq, Eq)]
pub enum FrameState {
    Empty,
    Clean(Page),
    Dirty(Page),
}

/// What happens to a frame. An access is to a page, which an empty frame then holds.
#[derive(Clone, Copy)]
pub enum FrameEvent {
    Read(Page),
    Write(Page),
    WriteBack,
    Emptying,
}

/// How a page is accessed.
#[derive(Clone, Copy)]
pub enum Access {
    Read,
    Write,
}

impl Access {
    /// What the access to a page does to its frame.
    pub fn event(self, page: Page) -> FrameEvent
        ensures { result ≡ event_of self page }
    {
        match self {
            Access::Read => FrameEvent::Read(page),
            Access::Write => FrameEvent::Write(page),
        }
    }
}

/// A frame.
#[derive(Clone, Copy)]
pub struct Frame {
    pub(crate) state: FrameState,
    pub(crate) marked: bool,
}

impl Frame {
    /// A frame that holds nothing yet.
    pub const VACANT: Frame = Frame {
        state: FrameState::Empty,
        marked: false,
    };

    /// The page that it holds.
    pub fn page(self) -> Option<Page>
        ensures { result ≡ held self }
    {
        match self.state {
            FrameState::Empty => None,
            FrameState::Clean(page) | FrameState::Dirty(page) => Some(page),
        }
    }

    /// Whether its page was written since it came or was written back.
    pub fn is_dirty(self) -> bool
        ensures { result ≡ dirty self }
    {
        matches!(self.state, FrameState::Dirty(_))
    }

    // Whether it holds the page.
    pub(crate) fn holds(self, page: Page) -> bool
        ensures { result ≡ holds page (held self) }
    {
        self.page() == Some(page)
    }

    // Whether it holds a page that is not in the set.
    pub(crate) fn stays(self, pages: PageSet) -> bool
        ensures { result ≡ filled (emptied_page (in_set pages) (held self)) }
    {
        self.page().is_some_and(|page| !pages.contains(page))
    }

    // Whether the hand passes over it: it holds a page and is marked.
    pub(crate) fn is_passed(self) -> bool
        ensures { result ≡ (filled (held self) && self.marked) }
    {
        self.state != FrameState::Empty && self.marked
    }

    /// Changes the state by an event. An access sets the mark, and emptying clears it.
    pub fn apply(&mut self, event: FrameEvent)
        ensures { self.new ≡ after_event self.old event }
    {
        use FrameEvent::{Emptying, Read, Write, WriteBack};
        use FrameState::{Clean, Dirty, Empty};
        // An arm that takes the page out of the state cannot bind the state as well.
        match (&mut self.state, event) {
            (state @ Empty, Read(page)) => *state = Clean(page),
            (state @ Empty, Write(page)) => *state = Dirty(page),
            (Clean(page), Write(_)) => self.state = Dirty(*page),
            (Dirty(page), WriteBack) => self.state = Clean(*page),
            (state, Emptying) => *state = Empty,
            (_, _) => {}
        }
        match event {
            Read(_) | Write(_) => self.marked = true,
            Emptying => self.marked = false,
            WriteBack => {}
        }
    }
}
