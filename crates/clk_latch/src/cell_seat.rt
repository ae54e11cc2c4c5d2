//! A thread's seat at the latch over one cell.
use crate::cell_rule::CellRecord;
use crate::rule::Knows;
use clk_machine::Published;
use crossbeam_utils::atomic::seq_cell::Pass;
use std::marker::Model;

// A seat's view of the cell.
pub(crate) type CellPass = Pass<CellRecord, Knows>;

/// A thread's place at a [`crate::CellLatch`]. The owner's has its current record at hand, and a reader's nothing.
///
/// A contract sees it as it sees a [`crate::LatchSeat`].
#[derive(Drop)]
pub struct CellSeat {
    pub(crate) pass: Pass<CellRecord, Knows>,
    pub(crate) current: Option<Published>,
}

impl Model for CellSeat {
    ghost use Rattle.clk_latch.specs.Epoch.{Place, place_code};

    ghost Value = { Place };

    ghost coded = { place_code };

    ghost use Rattle.crossbeam_utils.specs.Seq.{cell_view};
    ghost use Rattle.clk_latch.specs.CellRule.{cell_place, IsCellSeated};

    ghost view = { λ s. cell_place s.pass };

    ghost invariant = { λ s. IsCellSeated s.current (cell_view s.pass) };
}
