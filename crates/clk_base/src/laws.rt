//! Laws of lines and of blocks of numbers.
ghost use Rattle.clk_base.specs.First.{FirstDecides};
ghost use Rattle.clk_base.specs.Laws.{LinesOfJoined, ConsecutiveBlocksCover};

/// The lines of two lists, one after the other, are the lines of the first and then those of the second, whose numbers
/// go on where those of the first ended.
pub fn joined_lines<T>()
    ensures { LinesOfJoined T }
{}

/// Blocks of which the first begins at 0 and each other one where the one before it ended cover exactly the numbers
/// below the last end, each once, and rise.
pub fn consecutive_blocks()
    ensures { ConsecutiveBlocksCover }
{}

/// The first failing test decides: where some tests refuse, it is with the refusal of one of them before which all
/// pass, and else all pass.
pub fn first_failing_test<R>()
    ensures { FirstDecides R }
{}
