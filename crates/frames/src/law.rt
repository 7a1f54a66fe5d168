//! What holds of the frame rule.
ghost use Rattle.frames.specs.Law.{RuleLaw};

/// A call that is refused leaves the rule as it was. After any calls each guest has its f frames and as many marks, its hand on a
/// frame, and no page in two frames; a guest that is not admitted has nothing in its frames. An access leaves its page in a
/// marked frame and every other page where it was, but for the one that it evicts. The function does nothing: its contract is the
/// law.
pub fn frame_rule_stands()
    ensures { RuleLaw }
{}
