//! A law of remote readings.
ghost use Rattle.clk_remote.specs.Laws.{ReadingsReachBoth};

/// After a remote read that coupled, the word that it stepped on holds its reading, which is below neither of the two
/// values that it loaded.
pub fn readings_reach_both()
    ensures { ReadingsReachBoth }
{}
