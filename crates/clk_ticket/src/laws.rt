//! What it means that blocks cover numbers.
ghost use Rattle.clk_ticket.specs.Laws.{CoveringBlocks};

/// What it means that blocks cover the numbers below `n`: no number stands in two of them, each number below `n` stands
/// in one, and none from `n` on stands in any.
pub fn covering_blocks()
    ensures { CoveringBlocks }
{}
