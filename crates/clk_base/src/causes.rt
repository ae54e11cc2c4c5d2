//! Counts of faults, which tell what a call failed of.
ghost use Rattle.std.specs.Prelude.{◌≡◌};
ghost use Rattle.clk_base.specs.Causes.{one_more, Rose};

/// The count of faults after one more fault. At the end of its type it stands still.
pub fn raised(faults: u64) -> u64
    ensures rose { Rose faults result }
    ensures value { result ≡ one_more faults }
{
    faults.saturating_add(1)
}
