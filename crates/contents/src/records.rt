//! What is kept beside a stored page.
ghost use Rattle.std.specs.Prelude.{◌≡◌};

/// Memory for what is kept beside one stored page.
#[derive(Clone, Copy)]
pub struct ContentRecord {
    // how many use the content; 0 while it is free
    pub(crate) users: u16,
    pub(crate) fingerprint: u32,
}

impl ContentRecord {
    /// What memory for contents is filled with: `vec![in heap; ContentRecord::blank(); n]`.
    // Not by a `Default`, which would be a second name for the same record.
    pub fn blank() -> ContentRecord
        ensures users { result.users ≡ 0 }
        ensures fingerprint { result.fingerprint ≡ 0 }
    {
        ContentRecord {
            users: 0,
            fingerprint: 0,
        }
    }
}
