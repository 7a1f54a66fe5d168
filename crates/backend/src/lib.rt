//! What every store of pages keeps: the interface, and the backend that keeps nothing.
#![tactic(auto)]

pub mod account;
pub mod interface;
pub mod law;
pub mod moves;
pub mod nothing;
pub mod refusals;

pub use account::Account;
pub use interface::Backend;
pub use law::list_rule_keeps_the_meaning;
pub use moves::move_page;
pub use nothing::Nothing;
pub use refusals::{Cause, Refusal};
