//! Why a call of the host is refused.
ghost use Rattle.std.specs.Prelude.{◌≡◌};
ghost use Rattle.frames.specs.Refusals.{refusal_number};

/// Why the host refuses a call. The frame rule tells all of them but a lost page, which depends on what the pile holds.
#[derive(Clone, Copy, PartialEq, Eq, Debug)]
pub enum HostRefusal {
    Closed = 1,
    OpenAlready = 2,
    NoSuchGuest = 3,
    NotAdmitted = 4,
    AdmittedAlready = 5,
    NoSuchPage = 6,
    BadLength = 7,
    NoFrames = 8,
    PageLost = 9,
}

impl HostRefusal {
    /// The number that stands for this refusal in reports.
    pub fn number(self) -> u8
        ensures { result ≡ refusal_number self }
    {
        self as u8
    }
}
