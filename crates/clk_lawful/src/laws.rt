//! A law of histories.
ghost use Rattle.clk_lawful.specs.SortedHistory.{SortedIsChain};

/// The order of a history loses nothing: where the steps of a word, in the order in which they were made, go from its
/// opening each to where the next begins, and none takes it down, the same steps in the order of [`crate::histories`]
/// show the same values before and after, in the same order. So whoever reads a history goes from the opening from line
/// to line.
pub fn sorted_steps_are_a_chain()
    ensures { SortedIsChain }
{}
