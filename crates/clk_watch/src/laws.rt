//! Laws of the fold of records.
ghost use Rattle.clk_watch.specs.Laws.{HealthyIsNeverDemoted, DemotedStaysOut, LostAtBootStaysOut};

/// A source that is never slow, and whose ns since its kept readings agree with the watchdog's within the margins in
/// every visit, is never demoted.
pub fn healthy_is_never_demoted()
    ensures { HealthyIsNeverDemoted }
{}

/// A source that was demoted is never judged again, and never current again. Nor is a TSC source that was lost at boot.
pub fn demoted_stays_out()
    ensures again { DemotedStaysOut }
    ensures at_boot { LostAtBootStaysOut }
{}
