//! The time.

ghost use Rattle.std.specs.Prelude.{Option, ℤ};

/// What tells the time.
pub trait Clock {
    /// What it may tell: the seconds since 1 January 1970, 00:00:00 UTC, or nothing where it cannot be read.
    ghost ticks: { Self → Option ℤ → Type 0 };

    /// The time.
    fn seconds(&self) -> Option<i64>
        ensures { ticks self.now result };
}
