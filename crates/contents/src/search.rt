//! The search for a page among the contents in use, and for a free content.
ghost use Rattle.std.specs.Prelude.{◌≡◌, ℕ, ◌<◌, ◌≤◌, length, MatchOption, Decides, slice_index};
ghost use Rattle.contents.specs.Calls.{Found, Holds};
ghost use Rattle.contents.specs.View.{users_of, contents_area};

use super::pages::FingerprintedPage;
use super::store::Contents;

impl Contents {
    // Whether a content is in use and is this page. Bytes are compared, where they lie, only where the fingerprints are equal.
    fn is_page(&self, content: usize, page: &FingerprintedPage) -> bool
        ensures { Decides result (Holds (users_of self.now) (contents_area self.now) page.now.bytes.now content) }
    {
        let Some(record) = self.records.get(content) else {
            return false;
        };
        // the fingerprint first: in a search it differs at nearly every record, used or not
        record.fingerprint == page.fingerprint
            && record.users != 0
            && self
                .memory
                .page(content)
                .is_some_and(|stored| stored == page.bytes.as_slice())
    }

    // The content in use that is this page.
    pub(crate) fn find_page(&self, page: &FingerprintedPage) -> Option<u16>
        ensures { Found (users_of self.now) (contents_area self.now) page.now.bytes.now result }
    {
        (0..self.records.len() as u16).find(|content| self.is_page(usize::from(*content), page))
    }

    // The first content that has no users.
    pub(crate) fn first_free(&self) -> Option<usize>
        ensures { MatchOption result ((k : ℕ) → k < length (users_of self.now) → 1 ≤ slice_index (users_of self.now) k) (λ i. (i < length (users_of self.now)) × (slice_index (users_of self.now) i ≡ 0)) }
    {
        self.records.iter().position(|record| record.users == 0)
    }
}
