//! Faults: the frame that the hand takes, and an access as the frame rule has it.
ghost use Rattle.std.specs.Prelude.{◌≡◌, length, IfSome, if◌then◌else◌, Some, None, nat_eq};
ghost use Rattle.frames.specs.Clock.{access, evictee, taken, turned};
ghost use Rattle.frames.specs.Held.{access_dirty, clock, dirties};
ghost use Rattle.frames.specs.Turn.{Turn};

use super::hand::{next_place, sweep_from};
use super::pages::Page;
use super::states::Access;
use super::table::Frames;

impl Frames {
    /// The frame that a fault takes, or none where there are no frames. It keeps its page; the hand stands on the next frame.
    pub fn take_frame(&mut self) -> Option<usize>
        ensures answer { result ≡ (if nat_eq (length (clock self.old).pages) 0 then None else Some (taken (clock self.old))) }
        ensures clock { clock self.new ≡ turned (clock self.old) }
        ensures dirty { dirties self.new ≡ dirties self.old }
        ensures turn { IfSome result (λ i. Turn (clock self.old).pages (clock self.old).marks (clock self.new).marks (clock self.old).hand i) }
    {
        let count = self.count;
        if count == 0 {
            return None;
        }
        let frame = sweep_from(&mut self.table[0..count], self.hand);
        self.hand = next_place(frame, count);
        Some(frame)
    }

    /// An access to a page, as the frame rule has it: where the page is in no frame, one is taken and filled with it. Answers the
    /// page that gave way.
    pub fn access(&mut self, page: Page, kind: Access) -> Option<Page>
        ensures evicted { result ≡ evictee (clock self.old) page }
        ensures clock { clock self.new ≡ access (clock self.old) page }
        ensures dirty { dirties self.new ≡ access_dirty (clock self.old) (dirties self.old) page kind }
    {
        if let Some(frame) = self.find(page) {
            self.touch(frame, kind);
            return None;
        }
        let frame = self.take_frame()?;
        let evicted = self.page_in(frame);
        self.fill(frame, page, kind);
        evicted
    }
}

#[cfg(test)]
mod tests {
    use super::*;
    use crate::pages::PageSet;

    fn anonymous(index: u16) -> Page {
        Page::Anonymous { index }
    }

    // Three frames. Pages 1, 2 and 3 fill them and are all marked. Page 4 faults: the hand clears all three marks and takes frame
    // 0, where page 1 was. Page 2 is accessed again, so the next fault passes frame 1 over and takes frame 2.
    #[test]
    fn the_hand_goes_round(rt: HostRuntime) {
        let mut frames = Frames::new(3);
        assert_eq!(rt; frames.access(anonymous(1), Access::Read), None);
        assert_eq!(rt; frames.access(anonymous(2), Access::Write), None);
        assert_eq!(rt; frames.access(anonymous(3), Access::Read), None);
        assert_eq!(rt; frames.hand(), 0);
        assert_eq!(rt;
            frames.access(anonymous(4), Access::Read),
            Some(anonymous(1))
        );
        assert_eq!(rt; frames.hand(), 1);
        assert!(rt; frames.is_marked(0) && !frames.is_marked(1) && !frames.is_marked(2));
        assert_eq!(rt; frames.access(anonymous(2), Access::Read), None);
        assert!(rt; frames.is_marked(1) && frames.is_dirty(1));
        assert_eq!(rt;
            frames.access(anonymous(5), Access::Read),
            Some(anonymous(3))
        );
        assert_eq!(rt; frames.find(anonymous(5)), Some(2));
        assert_eq!(rt; frames.hand(), 0);
    }

    // A truncation from index 2 on leaves page 1 of the file, and the hand takes the emptied frame first.
    #[test]
    fn emptied_frames_are_taken_first(rt: HostRuntime) {
        let mut frames = Frames::new(2);
        let page = Page::File { file: 7, index: 1 };
        assert_eq!(rt; frames.access(page, Access::Write), None);
        assert_eq!(rt;
            frames.access(Page::File { file: 7, index: 2 }, Access::Write),
            None
        );
        frames.empty_set(PageSet::FileFrom { file: 7, index: 2 });
        assert_eq!(rt; frames.page_in(0), Some(page));
        assert_eq!(rt; frames.page_in(1), None);
        assert_eq!(rt; frames.take_frame(), Some(1));
        assert_eq!(rt; frames.hand(), 0);
        frames.empty_all();
        assert_eq!(rt; frames.page_in(0), None);
        assert_eq!(rt; Frames::new(0).access(page, Access::Read), None);
    }
}
