//! What the definitions of a run mean, as laws.
ghost use Rattle.clk_record.specs.FallLaws.{NoFallWhereNoneFalls, GreatestIsMost, SeenIsAtMostGreatest, ChangesWhereSidesChange};

/// What the counts of a run mean. Where no reading is below one before it, as with counters that never disagree, there
/// is no fall. No fall is above the greatest, nor is what a side saw. Falls change sides exactly where two falls in a
/// row are on different sides.
pub fn falls_are_counted()
    ensures steady { NoFallWhereNoneFalls }
    ensures greatest { GreatestIsMost }
    ensures seen { SeenIsAtMostGreatest }
    ensures changes { ChangesWhereSidesChange }
{}
