//! A law over any calls.
ghost use Rattle.index.specs.History.{NothingLeaks};

/// After any calls on a new index, removing every key leaves every node but the root free.
pub fn nothing_leaks<R: Copy>()
    ensures { NothingLeaks R }
{}
