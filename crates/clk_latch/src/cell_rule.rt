//! What the cell of a cell latch holds, the rule over it, and what its steps tell.
ghost use Rattle.std.specs.Prelude.{[], ◌∷◌};

use crate::rule::{Drawn, Knows};
use atomic_table::Split;
use crossbeam_utils::atomic::Words;
use crossbeam_utils::rule::{Outcome, Protocol};
use std::marker::{Brand, PhantomData};

// A record as words: its number, its counter value, and its ns in two's complement.
#[derive(Clone, Copy)]
pub struct CellRecord {
    pub rec: u64,
    pub cyc: u64,
    pub ns: u64,
}

impl Words<3> for CellRecord {
    ghost words = { λ r. r.rec ∷ r.cyc ∷ r.ns ∷ [] };

    fn to_words(self) -> [u64; 3] {
        [self.rec, self.cyc, self.ns]
    }

    fn from_words(bits: &[u64; 3]) -> CellRecord {
        CellRecord {
            rec: bits[0],
            cyc: bits[1],
            ns: bits[2],
        }
    }
}

pub struct OneCell;

impl Protocol<CellRecord, Knows> for OneCell {
    ghost use Rattle.clk_latch.specs.CellRule.{CellKept, knows_unopened};

    ghost holds = { CellKept };

    ghost first = { knows_unopened };
}

// The read of a reading.
pub(crate) struct Find<D> {
    drawn: PhantomData<D>,
}

impl<D: Drawn> Outcome<CellRecord, Knows> for Find<D> {
    ghost use Rattle.clk_latch.specs.CellRule.{Found};

    ghost then = { Found D.ticket_is };
}

// A join tells nothing of its own, so this read tells what the rule says of the view.
pub(crate) struct Tell;

impl Outcome<CellRecord, Knows> for Tell {
    ghost use Rattle.clk_latch.specs.CellRule.{Told};

    ghost then = { Told };
}

// The record that a write stores, and the updates that it leaves. Its caller picks them, since a step is told words
// alone.
pub(crate) trait Stored {
    ghost use Rattle.std.specs.Prelude.{ℕ};
    ghost use Rattle.clk_machine.specs.declared.reading.Published.{Published};

    ghost record_is: { Published };

    ghost left_is: { ℕ };
}

impl Stored for Brand {
    ghost use Rattle.std.specs.Prelude.{pos};

    ghost record_is = { record { rec = 0; ticket = 0; cyc = 0; ns = pos 0 } };

    ghost left_is = { 0 };
}

// The write of a record.
pub(crate) struct Store<S> {
    stored: PhantomData<S>,
}

impl<S: Stored> Outcome<CellRecord, Knows> for Store<S> {
    ghost use Rattle.std.specs.Prelude.{◌≡◌};
    ghost use Rattle.clk_latch.specs.CellRule.{knows_stored};

    ghost then = { λ before _ _ after. after ≡ knows_stored S.record_is S.left_is before };
}

// All that a seat knows goes to a new one.
pub(crate) struct Whole;

impl Split<Knows> for Whole {
    ghost use Rattle.clk_latch.specs.LatchRule.{knows_nothing};

    ghost left = { λ _. knows_nothing };

    ghost right = { λ v. v };
}
