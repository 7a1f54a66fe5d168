//! A store that follows the list of held pages.
use backend::Account;

/// Held pages, with the label of the store and its offer count.
#[derive(Drop)]
pub struct Store<H> {
    pub(crate) account: Account,
    pub(crate) pages: H,
}
