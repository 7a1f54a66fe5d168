//! A guest's pages, sets of them, and the keys that stand for them.
ghost use Rattle.std.specs.Prelude.{◌≡◌, IfSome};
ghost use Rattle.frames.specs.Pages.{NamesOnly, file_from, in_set, page_key};

use page::Key;

/// A page of a guest: one of a file, or an anonymous one.
#[derive(Clone, Copy, PartialEq, Eq, Debug)]
pub enum Page {
    File { file: u8, index: u16 },
    Anonymous { index: u16 },
}

impl Page {
    /// The key of this page of a guest: pool 2g for a file page, with the file as object, and pool 2g + 1, object 0 for an
    /// anonymous one. None where the guest is above 3, the file above 7 or the index above 4,095. No other page of any guest has
    /// the same key.
    pub fn key(self, guest: u8) -> Option<Key>
        ensures value { result ≡ page_key guest self }
        ensures apart { IfSome result (λ k. NamesOnly k guest self) }
    {
        if guest > 3 {
            return None;
        }
        match self {
            Page::File { file, index } if file < 8 => Key::new(2 * guest, u16::from(file), index),
            Page::File { .. } => None,
            Page::Anonymous { index } => Key::new(2 * guest + 1, 0, index),
        }
    }

    /// Whether it is a page of the file, from the index on.
    pub fn is_from(self, file: u8, index: u16) -> bool
        ensures { result ≡ file_from file index self }
    {
        matches!(self, Page::File { file: of, index: at } if of == file && at >= index)
    }
}

/// Which of a guest's pages a call takes away.
#[derive(Clone, Copy)]
pub enum PageSet {
    /// The pages of a file from an index on, as a truncation takes them.
    FileFrom { file: u8, index: u16 },
    /// One page, as a release takes it.
    One(Page),
    /// Every page, as leaving takes them.
    All,
}

impl PageSet {
    /// Whether a page is in the set.
    pub fn contains(self, page: Page) -> bool
        ensures { result ≡ in_set self page }
    {
        match self {
            PageSet::FileFrom { file, index } => page.is_from(file, index),
            PageSet::One(one) => one == page,
            PageSet::All => true,
        }
    }
}
