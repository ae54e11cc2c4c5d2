//! A visit to a source in a check: what it found, and the record of it.
ghost use Rattle.std.specs.Prelude.{◌≡◌};
ghost use Rattle.clk_record.specs.Fold.{ends_check, is_good, is_lost};

/// What a check found at a source. `cs_ns` and `wd_ns` are how far the source and the watchdog went since the readings
/// that were kept of them, in ns, from 0 to below 2^60.
#[derive(Clone, Copy, PartialEq, Eq, Debug)]
pub enum Outcome {
    /// The source is unstable, and was not read.
    Passed,
    /// No attempt at it was short enough, which makes it unstable.
    Slow,
    /// The watchdog took too long. The kept readings of all sources are dropped, and the check ends.
    Skip,
    /// No readings of it were kept, and now these are.
    First,
    /// The two differ by at most the margin.
    Good { cs_ns: i64, wd_ns: i64 },
    /// The two differ by more than the margin, which makes the source unstable.
    Bad { cs_ns: i64, wd_ns: i64 },
}

impl Outcome {
    /// Whether the source and the watchdog agreed.
    pub fn is_good(&self) -> bool
        ensures { result ≡ is_good self.now }
    {
        matches!(self, Outcome::Good { .. })
    }

    /// Whether it makes the source unstable.
    pub fn is_lost(&self) -> bool
        ensures { result ≡ is_lost self.now }
    {
        matches!(self, Outcome::Slow | Outcome::Bad { .. })
    }

    /// Whether it ends the check.
    pub fn ends_check(&self) -> bool
        ensures { result ≡ ends_check self.now }
    {
        matches!(self, Outcome::Skip)
    }
}

/// A source in a check: its place, its attempts, which are the `count` ones from `first` on in the watch's list, and
/// what they showed.
#[derive(Clone, Copy, PartialEq, Eq, Debug)]
pub struct SourceRecord {
    pub source: u32,
    pub first: u32,
    pub count: u32,
    pub outcome: Outcome,
    /// Exactly for a good TSC source that is current.
    pub tsc_current: bool,
    /// Exactly where the TSC source became unstable in this record.
    pub tsc_demoted: bool,
}
