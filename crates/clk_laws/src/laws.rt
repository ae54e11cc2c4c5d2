//! The laws, each on a function that does nothing.
ghost use Rattle.clk_laws.specs.Demoting.{LosesTheDrift, HigherWordsStay};
ghost use Rattle.clk_laws.specs.Seeing.{NoWordFalls};
ghost use Rattle.clk_laws.specs.Turning.{NoStableAfterPerCpu, NoPerCpuUndemoted};

/// In a lawful trace each demotion, at boot or by the watchdog, opens the clock words at the stable value of its own
/// raw reading less the drift, as 64-bit values that wrap. So the end of the stable mode shifts the clock by exactly
/// the drift. Linux 6.1 ends the stable mode in `__sched_clock_work` of `kernel/sched/clock.c`.
pub fn a_demotion_loses_the_drift()
    ensures { LosesTheDrift }
{}

/// In a lawful trace a demotion by the watchdog lifts the clock word of each CPU once: where the opening of the
/// demotion is above the word, as the sign of their difference tells, the word becomes that opening, and else it keeps
/// its value.
pub fn higher_words_stay()
    ensures { HigherWordsStay }
{}

/// In a lawful trace no thread sees a clock word fall: what an event finds of a word is not below what any earlier
/// event of the same thread showed of it.
pub fn no_word_is_seen_to_fall()
    ensures { NoWordFalls }
{}

/// In a lawful trace no thread that made a per-CPU reading finds the clock stable after that.
pub fn no_stable_after_percpu()
    ensures { NoStableAfterPerCpu }
{}

/// In a lawful trace of a clock that starts stable and is not demoted, no event of any thread is of per-CPU clocks: no
/// reading of a clock word, no coupling, no stamp.
pub fn no_percpu_undemoted()
    ensures { NoPerCpuUndemoted }
{}
