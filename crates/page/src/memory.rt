//! An area of memory cut into pages of 256 bytes.
ghost use Rattle.std.specs.Prelude.{◌≡◌, ◌+◌, ◌≤◌, true, [], ◌∷◌, length, is_ok, if◌then◌else◌, Ok, Err, IfSome, nat_lt};
ghost use Rattle.std.specs.Option.{option_map};
ghost use Rattle.page.specs.Memory.{refusal_number, area_of, pages_in, start_of, page_at, page_of, OthersKept, overlaid, put_page, put_run, zero_page, outcome, whole_page, within_page};

/// How many bytes a page has.
pub const PAGE_BYTES: usize = 256;

/// Why page memory refuses a call.
#[derive(Clone, Copy, PartialEq, Eq, Debug)]
pub enum PageRefusal {
    NoSuchPage = 6,
    BadLength = 7,
}

impl PageRefusal {
    /// The number that stands for this refusal in reports.
    pub fn number(self) -> u8
        ensures { result ≡ refusal_number self }
    {
        self as u8
    }
}

/// Memory cut into pages. Bytes past the last whole page are kept and never touched.
#[derive(Drop)]
pub struct PageMemory {
    bytes: Vec<u8>,
}

impl PageMemory {
    /// Page memory over these bytes, as they are.
    pub fn new(bytes: Vec<u8>) -> PageMemory
        ensures { result.bytes ≡ bytes }
    {
        PageMemory { bytes }
    }

    /// Gives the bytes back.
    pub fn into_bytes(self) -> Vec<u8>
        ensures { result ≡ self.bytes }
    {
        let PageMemory { bytes } = self;
        bytes
    }

    /// How many whole pages there are.
    pub fn pages(&self) -> usize
        ensures { result ≡ pages_in (area_of self.now) }
    {
        self.bytes.len() / PAGE_BYTES
    }

    /// The byte that the page at `place` begins at. Only below `pages()` is the product known to fit.
    fn start_of(&self, place: usize) -> Result<usize, PageRefusal>
        ensures { result ≡ (if nat_lt place (pages_in (area_of self.now)) then Ok (start_of place) else Err PageRefusal.NoSuchPage) }
    {
        if place < self.pages() {
            Ok(place * PAGE_BYTES)
        } else {
            Err(PageRefusal::NoSuchPage)
        }
    }

    /// Lays `bytes` over the area from `at` on.
    fn overlay(&mut self, at: usize, bytes: &[u8])
        requires { at + length bytes.now ≤ length (area_of self.old) }
        ensures { area_of self.new ≡ overlaid (area_of self.old) at bytes.now }
    {
        let area = self.bytes.as_mut_slice();
        area[at..at + bytes.len()].copy_from_slice(bytes);
    }

    /// The page at `place`, where it lies.
    pub fn page(&self, place: usize) -> Option<&[u8]>
        ensures value { option_map (λ p. p.now) result ≡ page_of (area_of self.now) place }
        ensures whole { IfSome result (λ p. length p.now ≡ 256) }
    {
        let start = self.start_of(place).ok()?;
        Some(&self.bytes.as_slice()[start..start + PAGE_BYTES])
    }

    /// Copies the page at `place` out.
    pub fn read(&self, place: usize, out: &mut [u8]) -> Result<(), PageRefusal>
        ensures answer { result ≡ outcome (area_of self.now) place (whole_page (length out.old)) }
        ensures out { out.new ≡ (if is_ok result then page_at (area_of self.now) place else out.old) }
    {
        let page = self.page(place).ok_or(PageRefusal::NoSuchPage)?;
        if out.len() != page.len() {
            return Err(PageRefusal::BadLength);
        }
        out.copy_from_slice(page);
        Ok(())
    }

    /// Copies a page in.
    pub fn write(&mut self, place: usize, page: &[u8]) -> Result<(), PageRefusal>
        ensures answer { result ≡ outcome (area_of self.old) place (whole_page (length page.now)) }
        ensures area { area_of self.new ≡ (if is_ok result then put_page (area_of self.old) place page.now else area_of self.old) }
        ensures same_length { length (area_of self.new) ≡ length (area_of self.old) }
        ensures same_place { is_ok result ≡ true → page_at (area_of self.new) place ≡ page.now }
        ensures other_places { OthersKept (area_of self.old) (area_of self.new) place }
    {
        let start = self.start_of(place)?;
        if page.len() != PAGE_BYTES {
            return Err(PageRefusal::BadLength);
        }
        self.overlay(start, page);
        Ok(())
    }

    /// Copies a run of bytes into the page at `place`, from the page's byte `at` on.
    pub fn set_run(&mut self, place: usize, at: usize, run: &[u8]) -> Result<(), PageRefusal>
        ensures answer { result ≡ outcome (area_of self.old) place (within_page at (length run.now)) }
        ensures area { area_of self.new ≡ (if is_ok result then put_run (area_of self.old) place at run.now else area_of self.old) }
        ensures same_length { length (area_of self.new) ≡ length (area_of self.old) }
        ensures same_place { is_ok result ≡ true → page_at (area_of self.new) place ≡ overlaid (page_at (area_of self.old) place) at run.now }
        ensures other_places { OthersKept (area_of self.old) (area_of self.new) place }
    {
        let start = self.start_of(place)?;
        if at > PAGE_BYTES || run.len() > PAGE_BYTES - at {
            return Err(PageRefusal::BadLength);
        }
        self.overlay(start + at, run);
        Ok(())
    }

    /// Sets the byte `at` of the page at `place`.
    pub fn set_byte(&mut self, place: usize, at: usize, byte: u8) -> Result<(), PageRefusal>
        ensures answer { result ≡ outcome (area_of self.old) place (nat_lt at 256) }
        ensures area { area_of self.new ≡ (if is_ok result then put_run (area_of self.old) place at (byte ∷ []) else area_of self.old) }
        ensures same_length { length (area_of self.new) ≡ length (area_of self.old) }
        ensures same_place { is_ok result ≡ true → page_at (area_of self.new) place ≡ overlaid (page_at (area_of self.old) place) at (byte ∷ []) }
        ensures other_places { OthersKept (area_of self.old) (area_of self.new) place }
    {
        self.set_run(place, at, &[byte])
    }

    /// Fills the page at `place` with zeros.
    pub fn zero(&mut self, place: usize) -> Result<(), PageRefusal>
        ensures answer { result ≡ outcome (area_of self.old) place true }
        ensures area { area_of self.new ≡ (if is_ok result then put_page (area_of self.old) place zero_page else area_of self.old) }
        ensures same_length { length (area_of self.new) ≡ length (area_of self.old) }
        ensures same_place { is_ok result ≡ true → page_at (area_of self.new) place ≡ zero_page }
        ensures other_places { OthersKept (area_of self.old) (area_of self.new) place }
    {
        self.write(place, &[0; PAGE_BYTES])
    }
}

#[cfg(test)]
mod tests {
    use super::*;
    use std::test::Fail;

    #[test]
    fn writes_stay_in_their_page(rt: HostRuntime) -> Result<(), Fail> {
        let mut memory = PageMemory::new([9; 2 * PAGE_BYTES + 3].to_vec(rt.alloc())?);
        let mut page = [0; PAGE_BYTES];
        assert_eq!(rt; memory.pages(), 2);
        memory.write(1, &[5; PAGE_BYTES])?;
        memory.set_byte(1, 255, 6)?;
        memory.zero(0)?;
        memory.read(1, &mut page)?;
        assert_eq!(rt; page[254], 5);
        assert_eq!(rt; page[255], 6);
        let bytes = memory.into_bytes();
        assert_eq!(rt; bytes.as_slice().iter().copied().last(), Some(9));
        Ok(())
    }

    #[test]
    fn refusals_name_the_first_fault(rt: HostRuntime) -> Result<(), Fail> {
        let mut memory = PageMemory::new([9; PAGE_BYTES].to_vec(rt.alloc())?);
        assert_eq!(rt; memory.write(usize::MAX, &[]), Err(PageRefusal::NoSuchPage));
        assert_eq!(rt; memory.write(0, &[]), Err(PageRefusal::BadLength));
        assert_eq!(rt; memory.set_run(0, PAGE_BYTES, &[]), Ok(()));
        assert_eq!(rt;
            memory.set_run(0, PAGE_BYTES + 1, &[]),
            Err(PageRefusal::BadLength)
        );
        assert_eq!(rt;
            memory.set_byte(0, PAGE_BYTES, 1),
            Err(PageRefusal::BadLength)
        );
        Ok(())
    }
}
