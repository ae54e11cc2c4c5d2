//! How many tickets and steps a lawful trace has.
ghost use Rattle.clk_lawful.specs.Counting.{CountsTickets, CountsSteps};

/// Where the clock is per-CPU from the start and there is no bring-up table and no watchdog, a lawful trace has exactly
/// the tickets that the boot and the words of the scripts draw: the machine alone tells how many.
pub fn tickets_are_counted()
    ensures { CountsTickets }
{}

/// Of such a machine the histories of a lawful trace have exactly the steps that the words of the scripts make.
pub fn steps_are_counted()
    ensures { CountsSteps }
{}
