//! The verdict on a finished run.
ghost use Rattle.std.specs.Prelude.{◌≡◌, ◌^◌, ◌<◌};
ghost use Rattle.clk_record.specs.Verdicts.{verdict_of};

use clk_record::{Verdict, WarpRun};

/// The verdict on a run with so many runs left, this one among them. A run without a fall passed. Else it failed where
/// it was the last one or falls changed sides, and else the target adds what it saw itself, or goes back by the
/// greatest fall where it saw none.
pub fn verdict(run: &WarpRun, runs_left: u32) -> Verdict
    requires left { 0 < runs_left }
    requires max { run.now.max < 2 ^ 63 }
    requires target { run.now.cur_target < 2 ^ 63 }
    ensures { result ≡ verdict_of run.now runs_left }
{
    if run.nr == 0 {
        return Verdict::Passed;
    }
    if runs_left == 1 || run.random > 0 {
        return Verdict::Failed {
            max: run.max,
            random: run.random,
        };
    }
    let adjust = if run.cur_target == 0 {
        -(run.max as i64)
    } else {
        run.cur_target as i64
    };
    Verdict::Again { adjust }
}
