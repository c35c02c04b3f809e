//! Who takes the lines on a service.
ghost use Rattle.std.specs.Prelude.{◌≡◌, ℕ, Bool};

/// Who takes the lines on a service, and the clock by which those on faults are limited.
pub trait Journal {
    /// Whether a line may begin with its priority.
    ghost priorities: { Self → Bool };

    /// The seconds that the clock may show.
    ghost shows: { Self → ℕ → Type 0 };

    /// Returns whether a line may begin with its priority, as in systemd's journal.
    fn has_priorities(&self) -> bool
        ensures { result ≡ priorities self.now };

    /// Returns the seconds since an arbitrary start, or 0 if the clock fails.
    fn seconds(&self) -> u64
        ensures { shows self.now result };
}

/// Takes no lines.
#[derive(Drop)]
pub(crate) struct NoJournal;

impl Journal for NoJournal {
    ghost use Rattle.std.specs.Prelude.{false, ⊤};

    ghost priorities = { λ journal. false };

    ghost shows = { λ journal seconds. Unit {0} };

    fn has_priorities(&self) -> bool {
        false
    }

    fn seconds(&self) -> u64 {
        0
    }
}
