//! Counts that are exact or say that they ran over.
ghost use Rattle.std.specs.Prelude.{◌≡◌, ℕ, ◌+◌, Some};
ghost use Rattle.page.specs.Counts.{count_of, one_more, count_text};

use std::fmt;

/// How many there are: an exact number, or more than 4,294,967,295.
// No `Option`: its `None` would read as no count at all.
#[derive(Clone, Copy, PartialEq, Eq, Debug)]
pub enum Count {
    Exact(u32),
    Over,
}

impl Count {
    /// The count of nothing.
    pub fn zero() -> Count
        ensures { result ≡ count_of 0 }
    {
        Count::Exact(0)
    }

    /// The count of one thing more.
    pub fn one_more(self) -> Count
        ensures value { result ≡ one_more self }
        ensures counts_on { (n : ℕ) → self ≡ count_of n → result ≡ count_of (n + 1) }
    {
        match self {
            Count::Exact(number) => number.checked_add(1).map_or(Count::Over, Count::Exact),
            Count::Over => Count::Over,
        }
    }
}

impl fmt::Display for Count {
    ghost output = { λ c. Some (count_text c) };

    fn fmt<W: fmt::Write>(&self, f: &mut fmt::Formatter<W>) -> fmt::Result {
        match self {
            Count::Exact(number) => write!(f, "{number}"),
            Count::Over => write!(f, "over"),
        }
    }
}
