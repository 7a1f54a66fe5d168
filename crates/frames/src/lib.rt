//! A guest's frames: which page is in which frame, which frame a fault takes, and the rule that says so for every guest.
#![tactic(auto)]

pub mod calls;
pub mod faults;
pub(crate) mod hand;
pub mod law;
pub mod pages;
pub mod refusals;
pub mod states;
pub mod table;

pub use law::frame_rule_stands;
pub use pages::{Page, PageSet};
pub use refusals::HostRefusal;
pub use states::{Access, Frame, FrameEvent, FrameState};
pub use table::{Frames, MOST_FRAMES};
