//! The key that names a page: a pool, an object in it and an index in that.
ghost use Rattle.std.specs.Prelude.{◌≡◌, IfSome, Some, decimal};
ghost use Rattle.page.specs.Keys.{pool_of, object_of, index_of, key_from, ephemeral};

use std::fmt;

/// The key of a page, a 32-bit number: pool in bits 28 to 31, object in bits 12 to 27, index in bits 0 to 11.
#[derive(Clone, Copy, PartialEq, Eq, Debug)]
pub struct Key {
    number: u32,
}

impl Key {
    /// The key with these parts, or none where the pool is above 15 or the index above 4,095.
    pub fn new(pool: u8, object: u16, index: u16) -> Option<Key>
        ensures value { result ≡ key_from pool object index }
        ensures parts { IfSome result (λ k. (pool_of k.number ≡ pool) × (object_of k.number ≡ object) × (index_of k.number ≡ index)) }
    {
        if pool > 15 || index > 4095 {
            return None;
        }
        let number = (u32::from(pool) << 28) + (u32::from(object) << 12) + u32::from(index);
        Some(Key { number })
    }

    pub fn pool(self) -> u8
        ensures { result ≡ pool_of self.number }
    {
        (self.number >> 28) as u8
    }

    pub fn object(self) -> u16
        ensures { result ≡ object_of self.number }
    {
        ((self.number >> 12) & 0xffff) as u16
    }

    pub fn index(self) -> u16
        ensures { result ≡ index_of self.number }
    {
        (self.number & 0xfff) as u16
    }

    /// Whether a backend may let the page go: even pools are ephemeral, odd ones persistent.
    pub fn is_ephemeral(self) -> bool
        ensures { result ≡ ephemeral self.number }
    {
        self.pool() % 2 == 0
    }
}

impl From<u32> for Key {
    ghost from_gives = { λ n k. k.number ≡ n };

    /// The key that this number is. Made from its own parts, it is the same key.
    fn from(number: u32) -> Key
        ensures value { result.number ≡ number }
        ensures whole { key_from (pool_of number) (object_of number) (index_of number) ≡ Some result }
    {
        Key { number }
    }
}

impl From<Key> for u32 {
    ghost from_gives = { λ k n. n ≡ k.number };

    /// The key as a number.
    fn from(key: Key) -> u32 {
        key.number
    }
}

impl fmt::Display for Key {
    ghost output = { λ k. Some (decimal k.number) };

    fn fmt<W: fmt::Write>(&self, f: &mut fmt::Formatter<W>) -> fmt::Result {
        self.number.fmt(f)
    }
}

#[cfg(test)]
mod tests {
    use super::*;

    #[test]
    fn parts_make_a_key(rt: HostRuntime) {
        assert_eq!(rt; Key::new(1, 2, 3), Some(Key::from(268_443_651)));
        assert_eq!(rt; Key::new(15, 65_535, 4_095), Some(Key::from(u32::MAX)));
        assert_eq!(rt; Key::new(16, 0, 0), None);
        assert_eq!(rt; Key::new(0, 0, 4_096), None);
    }
}
