//! A sequence of pseudo-random numbers, for programs that try many calls.
#![tactic(auto)]

ghost use Rattle.std.specs.Prelude.{◌≡◌, Some};
ghost use Rattle.shuffle.specs.Row.{after};

/// The numbers after a given one, without end: each is made of the one before it. After 0 they are all 0.
#[derive(Clone, Copy)]
pub struct Shuffled {
    last: u32,
}

impl Shuffled {
    /// The numbers after the given one.
    pub fn new(seed: u32) -> Shuffled
        ensures { result.last ≡ seed }
    {
        Shuffled { last: seed }
    }
}

impl Iterator for Shuffled {
    type Item = u32;

    ghost next_gives = { λ s r t. (r ≡ Some (after s.last)) × (t.last ≡ after s.last) };

    fn next(&mut self) -> Option<u32> {
        let a = self.last ^ (self.last << 13);
        let b = a ^ (a >> 17);
        self.last = b ^ (b << 5);
        Some(self.last)
    }
}

#[cfg(test)]
mod tests {
    use super::*;
    use std::test::Fail;

    #[test]
    fn first_numbers(rt: HostRuntime) -> Result<(), Fail> {
        let row: Vec<u32> = Shuffled::new(2463534242).take(3).collect(rt.alloc())?;
        assert_eq!(rt;
            row.as_slice(),
            [723471715, 2497366906, 2064144800].as_slice()
        );
        Ok(())
    }
}
