//! What the number alone tells of its machine and of a run.
ghost use Rattle.clk_make.specs.Fixed.{MachinesAreSized, RunsAreSized};

/// The machine of a number has as many CPUs, readers, script words and tickets as `specs/Numbers.antt` says. A lawful
/// trace of it, whatever the order of its threads, has exactly those tickets, and in its histories exactly the steps
/// said there.
pub fn sizes_are_fixed()
    ensures machines { MachinesAreSized }
    ensures runs { RunsAreSized }
{}
