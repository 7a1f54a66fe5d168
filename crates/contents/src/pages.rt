//! A page and its fingerprint.
ghost use Rattle.std.specs.Prelude.{◌≡◌, length, MatchOption, ◌≢◌};
ghost use Rattle.contents.specs.Fingerprint.{fingerprint_of};

use page::PAGE_BYTES;

#[tactic(auto, unfolding(crate::specs::Fingerprint::fingerprint_of))]
pub(crate) fn fingerprint_of(page: &[u8]) -> u32
    ensures { result ≡ fingerprint_of page.now }
{
    page.iter().fold(
        0,
        |print: u32, byte| print.wrapping_mul(31).wrapping_add(u32::from(*byte)),
    )
}

// The bytes of a page, as many as it has, and their fingerprint.
#[derive(Clone, Copy)]
pub(crate) struct FingerprintedPage<'a> {
    pub(crate) bytes: &'a [u8; PAGE_BYTES],
    pub(crate) fingerprint: u32,
    ghost whole: { length bytes.now ≡ 256 },
    ghost printed: { fingerprint ≡ fingerprint_of bytes.now },
}

impl<'a> FingerprintedPage<'a> {
    // None where there are not as many bytes as a page has.
    pub(crate) fn new(bytes: &'a [u8]) -> Option<FingerprintedPage<'a>>
        ensures { MatchOption result (length bytes.now ≢ 256) (λ page. page.bytes.now ≡ bytes.now) }
    {
        let bytes: &[u8; PAGE_BYTES] = bytes.try_into().ok()?;
        Some(FingerprintedPage {
            bytes,
            fingerprint: fingerprint_of(bytes),
        })
    }
}
