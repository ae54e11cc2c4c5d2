//! Which calls of an end in memory fail.
ghost use Rattle.std.specs.Prelude.{◌≡◌, ◌<◌, ◌≤◌, is_err};
ghost use Rattle.clk_base.specs.Causes.{one_more, HasCause};
ghost use Rattle.clk_tool.specs.Failures.{fresh, fails_next, after_call};

use clk_base::raised;
use clk_num::List;
use clk_trace::Failed;
use std::marker::Model;

/// Which calls of an end in memory fail, and the most bytes that one call moves.
#[derive(Drop)]
pub(crate) struct FailurePlan {
    piece: usize,
    fails: List<u64>,
    calls: u64,
    faults: u64,
}

impl Model for FailurePlan {
    ghost use Rattle.std.specs.Prelude.{◌<◌};
    ghost use Rattle.clk_tool.specs.Failures.{Planned};

    ghost Value = { Planned };

    ghost view = { λ p. record { piece = p.piece; fails = p.fails.items; calls = p.calls; faults = p.faults } };

    ghost invariant = { λ p. 0 < p.piece };
}

impl FailurePlan {
    /// A plan before any call. Calls are numbered from 1, and those whose number is in `fails` fail.
    pub(crate) fn new(piece: usize, fails: List<u64>) -> FailurePlan
        requires { 0 < piece }
        ensures { result ≡ fresh piece fails.items }
    {
        FailurePlan {
            piece,
            fails,
            calls: 0,
            faults: 0,
        }
    }

    /// The most bytes that one call moves.
    pub(crate) fn piece(&self) -> usize
        ensures value { result ≡ self.now.piece }
        ensures positive { 0 < result }
    {
        self.piece
    }

    /// How many calls failed.
    pub(crate) fn faults(&self) -> u64
        ensures { result ≡ self.now.faults }
    {
        self.faults
    }

    /// Counts a call, which fails where its number is listed.
    pub(crate) fn call(&mut self) -> Result<(), Failed>
        ensures fails { is_err result ≡ fails_next self.old }
        ensures after { self.new ≡ after_call (fails_next self.old) self.old }
        ensures cause { HasCause self.old.faults self.new.faults result }
    {
        self.calls = raised(self.calls);
        if self.fails.items().contains(&self.calls) {
            self.faults = raised(self.faults);
            return Err(Failed);
        }
        Ok(())
    }

    /// Counts a failure of the call that is under way.
    pub(crate) fn fault(&mut self) -> Failed
        ensures after { self.new ≡ record self.old { faults = one_more self.old.faults } }
        ensures later { self.old.faults ≤ self.new.faults }
    {
        self.faults = raised(self.faults);
        Failed
    }
}
