//! What holds of every store that follows the list of held pages.
ghost use Rattle.backend.specs.ListLaw.{ListLaw};

/// A store that follows the list of held pages keeps the interface's meaning, whatever lacks a place. A put evicts one page
/// after another while a place is lacking and an ephemeral page is held, each the oldest of the even pool that holds most
/// pages, of equal pools the lowest. The function does nothing: its contract is the law.
pub fn list_rule_keeps_the_meaning()
    ensures { ListLaw }
{}
