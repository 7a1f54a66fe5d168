//! Layers that stand on any backend and are backends themselves.
#![tactic(auto)]

pub mod divider;
pub mod law;
pub mod quota;

pub use divider::Divider;
pub use law::piles_keep_the_meaning;
pub use quota::Quota;
