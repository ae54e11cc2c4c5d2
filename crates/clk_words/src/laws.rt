//! Laws of histories and of what seats find, as functions that callers can cite.
ghost use Rattle.clk_words.specs.Laws.{WordsRise, HeldWasPut, StepsAreChains, EachFollows, LiftedBefore, OffsetStays};

/// As a history goes on, no clock word falls, by the sign of the difference. So a word that is loaded again does not
/// hold a value below what it held before.
pub fn words_rise()
    ensures { WordsRise }
{}

/// What a clock word has held is its opening or the new value of a step on it. So the value that a remote reading names
/// is the opening of the other word or was put there earlier.
pub fn held_was_put()
    ensures { HeldWasPut }
{}

/// On each clock word the steps of a history go from the opening on, each from where the one before it ended.
pub fn steps_are_chains()
    ensures { StepsAreChains }
{}

/// Each step of a history found the value that the steps before it leave, raised it to its target, and names values
/// that were there.
pub fn each_follows()
    ensures { EachFollows }
{}

/// After a stable start each step that is no lift found its word not below what a lift of that word had left, by the
/// sign of the difference. So every word was lifted before the first reading that is per-CPU.
pub fn lifted_before()
    ensures { LiftedBefore }
{}

/// The offset never changes once the mode is per-CPU: what a seat has found it finds again, and so does each seat that
/// was split from it or joined with it.
pub fn offset_stays()
    ensures { OffsetStays }
{}
