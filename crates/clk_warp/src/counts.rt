//! What a warp run counts, turn by turn.
ghost use Rattle.std.specs.Prelude.{◌≡◌, ◌+◌, ◌^◌, ◌<◌, ◌≤◌, [], not, true, false, if◌then◌else◌};
ghost use Rattle.clk_record.specs.Sides.{one_if_changed};
ghost use Rattle.clk_warp.specs.Few.{IsFew, AreFew};

use crate::progress::Progress;
use clk_record::Side;
use std::cmp::max;

/// The counters of a warp run, which take one reading at a time. After the statics `nr_warps`, `max_warp` and
/// `random_warps` and the variables `cur_max_warp` and `cur_warps` of `check_tsc_warp` in Linux 6.1's
/// `arch/x86/kernel/tsc_sync.c`. Sizes are in cycles.
#[derive(Clone, Copy, Debug)]
pub struct WarpCounts {
    /// How many falls there are.
    pub nr: u32,
    /// The size of the greatest fall, or 0.
    pub max: u64,
    /// How many falls come after a fall on the other side.
    pub random: u32,
    /// The greatest fall up to and with the source's last, or 0 if the source has none.
    pub cur_source: u64,
    /// The same of the target.
    pub cur_target: u64,
    pub(crate) span: u64,
    pub(crate) turns: u32,
    pub(crate) last: Option<Side>,
    pub(crate) prev: u64,
    pub(crate) source: Progress,
    pub(crate) target: Progress,
    ghost few: { AreFew span turns nr random source target },
}

impl WarpCounts {
    ghost use Rattle.clk_record.specs.Falls.{is_started, is_ended};
    ghost use Rattle.clk_warp.specs.Counts.{progress_of, limits_of, AreCountsOf, AddsReading};
    ghost use Rattle.clk_warp.specs.CountSteps.{WithProgress, WithFall, Compares};

    /// The counters of a run in which no reading is made. A side ends on an eighth turn where its counter went on by
    /// more than `span` cycles since its start, or where it made more than `turns` turns, at most 4,096.
    pub fn new(span: u64, turns: u32) -> WarpCounts
        requires { turns ≤ 4096 }
        ensures { AreCountsOf (record { span = span; turns = turns }) [] result }
    {
        WarpCounts {
            nr: 0,
            max: 0,
            random: 0,
            cur_source: 0,
            cur_target: 0,
            span,
            turns,
            last: None,
            prev: 0,
            source: Progress::new(),
            target: Progress::new(),
        }
    }

    /// Whether the side has made its first reading.
    pub fn started(&self, side: Side) -> bool
        ensures progress { result ≡ (progress_of side self.now).started }
        ensures run { (l : _) (rs : _) → AreCountsOf l rs self.now → result ≡ is_started side rs }
    {
        self.progress(side).started
    }

    /// Whether the side has made its last turn.
    pub fn ended(&self, side: Side) -> bool
        ensures progress { result ≡ (progress_of side self.now).ended }
        ensures run { (l : _) (rs : _) → AreCountsOf l rs self.now → result ≡ is_ended l side rs }
    {
        self.progress(side).ended
    }

    /// Takes the next reading in lock order. The side has not ended, `start` is true exactly for its first reading, and
    /// `tsc`, in cycles, leaves room for the span.
    pub fn add(&mut self, side: Side, start: bool, tsc: u64)
        requires going { (progress_of side self.old).ended ≡ false }
        requires first { start ≡ not (progress_of side self.old).started }
        requires stop { tsc + self.old.span < 2 ^ 64 }
        ensures limits { limits_of self.new ≡ limits_of self.old }
        ensures counts { AddsReading self.old side start tsc self.new }
    {
        if start {
            self.set_progress(side, self.progress(side).begun(tsc));
        } else {
            self.turn(side, tsc);
        }
    }

    // A turn. A start reading is never the turn before another.
    fn turn(&mut self, side: Side, tsc: u64)
        requires going { (progress_of side self.old).ended ≡ false }
        requires started { (progress_of side self.old).started ≡ true }
        ensures limits { limits_of self.new ≡ limits_of self.old }
        ensures counts { AddsReading self.old side false tsc self.new }
    {
        let progress = self.progress(side).gone_on(self.span, self.turns, tsc);
        self.set_progress(side, progress);
        self.compare(side, progress.ended, tsc);
    }

    // Counts a turn where it is a fall, and takes it as the turn before the next. A reading that ends a loop counts
    // none.
    fn compare(&mut self, side: Side, ended: bool, tsc: u64)
        requires { self.old.nr < self.old.source.turn + self.old.target.turn }
        ensures { Compares side ended tsc self.old self.new }
    {
        if !ended && tsc < self.prev {
            self.count(side, self.prev - tsc);
        }
        self.prev = tsc;
    }

    // One fall more.
    fn count(&mut self, side: Side, size: u64)
        requires { self.old.nr < self.old.source.turn + self.old.target.turn }
        ensures { WithFall side size self.old self.new }
    {
        self.max = max(self.max, size);
        match side {
            Side::Source => self.cur_source = self.max,
            Side::Target => self.cur_target = self.max,
        }
        if is_other(self.last, side) {
            self.random += 1;
        }
        self.nr += 1;
        self.last = Some(side);
    }

    pub(crate) fn progress(&self, side: Side) -> Progress
        ensures progress { result ≡ progress_of side self.now }
        ensures few { IsFew self.now.span self.now.turns result }
        ensures turns { self.now.turns ≤ 4096 }
    {
        match side {
            Side::Source => self.source,
            Side::Target => self.target,
        }
    }

    fn set_progress(&mut self, side: Side, progress: Progress)
        requires few { IsFew self.old.span self.old.turns progress }
        requires later { (progress_of side self.old).turn ≤ progress.turn }
        ensures { WithProgress side progress self.old self.new }
    {
        match side {
            Side::Source => self.source = progress,
            Side::Target => self.target = progress,
        }
    }
}

// Whether there was a fall before, on the other side.
fn is_other(before: Option<Side>, side: Side) -> bool
    ensures { one_if_changed before side ≡ if result then 1 else 0 }
{
    match (before, side) {
        (Some(Side::Source), Side::Target) | (Some(Side::Target), Side::Source) => true,
        _ => false,
    }
}
