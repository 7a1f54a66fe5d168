//! Making contents, and the questions that they answer.
ghost use Rattle.std.specs.Prelude.{◌≡◌, min, ◌&&◌, length, replicate, if◌then◌else◌, ◌==◌, nat_lt, slice_index};
ghost use Rattle.page.specs.Memory.{pages_in, page_at};
ghost use Rattle.contents.specs.Calls.{Found};
ghost use Rattle.contents.specs.Records.{in_use_in};
ghost use Rattle.contents.specs.View.{users_of, contents_area};

use super::memory::ContentsMemory;
use super::pages::FingerprintedPage;
use super::records::ContentRecord;
use super::store::Contents;
use page::PageMemory;

/// The most contents that there can be.
pub const LIMIT: usize = 4096;

impl Contents {
    /// Contents that are all free, over the memory given, whatever it holds. Records past the last content are let go.
    pub fn new(memory: ContentsMemory) -> Contents
        ensures users { users_of result ≡ replicate (min 4096 (min (pages_in memory.bytes.items) (length memory.records.items))) 0 }
        ensures area { contents_area result ≡ memory.bytes.items }
    {
        let ContentsMemory { bytes, mut records } = memory;
        let memory = PageMemory::new(bytes);
        records.truncate(memory.pages().min(LIMIT));
        records.fill(ContentRecord::blank());
        Contents {
            records,
            memory,
            in_use: 0,
        }
    }

    /// Gives the memory back.
    pub fn into_memory(self) -> ContentsMemory
        ensures bytes { result.bytes ≡ self.memory.bytes }
        ensures records { result.records ≡ self.records }
    {
        let Contents {
            records,
            memory,
            ..
        } = self;
        ContentsMemory {
            bytes: memory.into_bytes(),
            records,
        }
    }

    /// How many contents there can be.
    pub fn size(&self) -> usize
        ensures { result ≡ length (users_of self.now) }
    {
        self.records.len()
    }

    /// How many contents have users.
    pub fn in_use(&self) -> usize
        ensures { result ≡ in_use_in (users_of self.now) }
    {
        self.in_use
    }

    // 0 and no `Option`: a content that there is not has no users.
    /// How many use a content; 0 where there is no such content.
    pub fn users(&self, content: u16) -> u16
        ensures { result ≡ slice_index (users_of self.now) content }
    {
        self.records
            .get(usize::from(content))
            .map_or(0, |record| record.users)
    }

    /// The content in use that is this page.
    pub fn find(&self, page: &[u8]) -> Option<u16>
        ensures { Found (users_of self.now) (contents_area self.now) page.now result }
    {
        self.find_page(&FingerprintedPage::new(page)?)
    }

    // A flag, as the stores above answer one for a page that they copy into the caller's buffer.
    /// Copies the page of a content out, and answers whether there is such a content and `out` has the length of a page.
    pub fn read(&self, content: u16, out: &mut [u8]) -> bool
        ensures answer { result ≡ (nat_lt content (length (users_of self.now)) && length out.old == 256) }
        ensures out { out.new ≡ (if result then page_at (contents_area self.now) content else out.old) }
    {
        usize::from(content) < self.size() && self.memory.read(usize::from(content), out).is_ok()
    }
}
