//! The law of demotions.
ghost use Rattle.clk_record.specs.Demotions.{DemotionsShiftByDrift};

/// Where the offset that stood is the one of the last stable stamp, a demotion opens at the stable value of its own raw
/// reading less the drift. So a demotion shifts the clock by exactly the drift.
pub fn demotions_shift_by_drift()
    ensures { DemotionsShiftByDrift }
{}
