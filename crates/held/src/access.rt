//! How many keys are held, and how many can be.
ghost use Rattle.std.specs.Prelude.{◌≡◌, length};
ghost use Rattle.held.specs.View.{holdings, size_of};

use crate::held::Held;

impl Held {
    /// How many keys can be held.
    pub fn size(&self) -> usize
        ensures { result ≡ size_of self.now }
    {
        self.size
    }

    /// How many keys are held.
    pub fn count(&self) -> usize
        ensures { result ≡ length (holdings self.now) }
    {
        self.count
    }
}
