//! What holds of every pile of layers.
ghost use Rattle.layers.specs.Piles.{PilesLaw};

/// Quotas and dividers, nested to any depth over any backends that keep the interface's meaning, keep it too. Each
/// quota refuses what is over its limit by its own label and passes nothing on then; all else passes unaltered, through
/// each divider to the side of the key's pool. The function does nothing: its contract is the law.
pub fn piles_keep_the_meaning()
    ensures { PilesLaw }
{}
