//! Users of contents that come and go.
ghost use Rattle.std.specs.Prelude.{◌≡◌, ℕ, ◌-◌, ◌≤◌, length, Some, slice_index, slice_set};
ghost use Rattle.page.specs.Memory.{page_at};
ghost use Rattle.contents.specs.Calls.{Absent, Acquired, CountedUp, LaidDown};
ghost use Rattle.contents.specs.View.{users_of, contents_area};

use super::pages::FingerprintedPage;
use super::records::ContentRecord;
use super::store::Contents;

impl Contents {
    // One user more of a content in use, where it can be counted.
    fn share(&mut self, content: u16) -> Option<u16>
        requires { 1 ≤ slice_index (users_of self.old) content }
        ensures { CountedUp (users_of self.old) (contents_area self.old) content result (users_of self.new) (contents_area self.new) }
    {
        let users = self.users(content).checked_add(1)?;
        self.records[usize::from(content)].users = users;
        Some(content)
    }

    // Makes a page that is not there a content that is free, if there is one.
    fn store(&mut self, page: &FingerprintedPage) -> Option<u16>
        requires absent { Absent (users_of self.old) (contents_area self.old) page.now.bytes.now }
        ensures { LaidDown (users_of self.old) (contents_area self.old) page.now.bytes.now result (users_of self.new) (contents_area self.new) }
    {
        if self.in_use == self.size() {
            return None;
        }
        let content = self.first_free()?;
        let FingerprintedPage { bytes, fingerprint } = *page;
        self.memory.write(content, bytes).unwrap();
        self.records[content] = ContentRecord {
            users: 1,
            fingerprint,
        };
        self.in_use += 1;
        Some(content as u16)
    }

    /// Has one user more of this page, which is stored where it is not there yet, and answers its content.
    pub fn acquire(&mut self, page: &[u8]) -> Option<u16>
        ensures outcome { Acquired (users_of self.old) (contents_area self.old) page.now result (users_of self.new) (contents_area self.new) }
        ensures same_size { length (users_of self.new) ≡ length (users_of self.old) }
        ensures same_length { length (contents_area self.new) ≡ length (contents_area self.old) }
        ensures holds { (i : ℕ) → result ≡ Some i → page_at (contents_area self.new) i ≡ page.now }
        ensures others { (j : ℕ) → 1 ≤ slice_index (users_of self.old) j → page_at (contents_area self.new) j ≡ page_at (contents_area self.old) j }
    {
        let page = FingerprintedPage::new(page)?;
        match self.find_page(&page) {
            Some(content) => self.share(content),
            None => self.store(&page),
        }
    }

    /// Has one user less of a content. It is free once it has none, and its page stays until another is stored there.
    pub fn release(&mut self, content: u16)
        ensures users { users_of self.new ≡ slice_set (users_of self.old) content (slice_index (users_of self.old) content - 1) }
        ensures area { contents_area self.new ≡ contents_area self.old }
    {
        let users = self.users(content);
        if users == 0 {
            return;
        }
        self.records[usize::from(content)].users = users - 1;
        if users == 1 {
            self.in_use -= 1;
        }
    }
}

#[cfg(test)]
mod tests {
    use super::*;
    use crate::memory::ContentsMemory;
    use crate::pages::fingerprint_of;
    use page::PAGE_BYTES;
    use std::test::Fail;

    #[test]
    fn equal_pages_are_stored_once(rt: HostRuntime) -> Result<(), Fail> {
        let bytes = [9; 2 * PAGE_BYTES + 3].to_vec(rt.alloc())?;
        let records = [ContentRecord::blank(); 5].to_vec(rt.alloc())?;
        let mut contents = Contents::new(ContentsMemory { bytes, records });
        let ones = [1; PAGE_BYTES];
        let twos = [2; PAGE_BYTES];
        let mut out = [0; PAGE_BYTES];
        assert_eq!(rt; contents.size(), 2);
        assert_eq!(rt; contents.find(&[9; PAGE_BYTES]), None);
        assert_eq!(rt; contents.acquire(&ones), Some(0));
        assert_eq!(rt; contents.acquire(&twos), Some(1));
        assert_eq!(rt; contents.acquire(&ones), Some(0));
        assert_eq!(rt; contents.users(0), 2);
        assert_eq!(rt; contents.in_use(), 2);
        assert_eq!(rt; contents.acquire(&[3; PAGE_BYTES]), None);
        assert_eq!(rt; contents.acquire(&[1; 3]), None);
        contents.release(0);
        assert_eq!(rt; contents.find(&ones), Some(0));
        contents.release(0);
        assert_eq!(rt; contents.find(&ones), None);
        assert_eq!(rt; contents.in_use(), 1);
        assert_eq!(rt; contents.acquire(&[3; PAGE_BYTES]), Some(0));
        assert!(rt; contents.read(0, &mut out));
        assert_eq!(rt; out[255], 3);
        assert!(rt; !contents.read(2, &mut out));
        let ContentsMemory { bytes, .. } = contents.into_memory();
        assert_eq!(rt; bytes.as_slice().iter().copied().last(), Some(9));
        Ok(())
    }

    // The fingerprint does not tell these pages apart: 31 times the byte before, and the byte.
    #[test]
    fn a_fingerprint_decides_nothing(rt: HostRuntime) -> Result<(), Fail> {
        let bytes = [0; 2 * PAGE_BYTES].to_vec(rt.alloc())?;
        let records = [ContentRecord::blank(); 2].to_vec(rt.alloc())?;
        let mut contents = Contents::new(ContentsMemory { bytes, records });
        let mut one = [0; PAGE_BYTES];
        let mut other = [0; PAGE_BYTES];
        one[0] = 1;
        other[1] = 31;
        assert_eq!(rt; fingerprint_of(&one), fingerprint_of(&other));
        assert_eq!(rt; contents.acquire(&one), Some(0));
        assert_eq!(rt; contents.find(&other), None);
        assert_eq!(rt; contents.acquire(&other), Some(1));
        Ok(())
    }
}
