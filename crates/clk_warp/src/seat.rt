//! A seat at the warp lock, one for each side.
ghost use Rattle.std.specs.Prelude.{◌≡◌, Some, IsSome};

use crate::state::WarpState;
use crate::view::View;
use atomic_table::Seat;
use clk_record::Side;
use std::marker::Model;
use std::snapshot::Snapshot;

/// A side's place at a [`crate::TurnLock`].
///
/// A contract sees it as a `Turn`, `specs/Turns.antt`: its lock, its side, whether it is inside, its last lock ticket,
/// the sections that it has found or made, and those that it made.
#[derive(Drop)]
pub struct TurnSeat {
    pub(crate) seat: Seat<Option<WarpState>, View>,
    pub(crate) side: Side,
    pub(crate) inside: bool,
    pub(crate) ticket: Option<u64>,
    pub(crate) first: Snapshot<WarpState>,
}

impl Model for TurnSeat {
    ghost use Rattle.clk_warp.specs.Turns.{Turn};

    ghost Value = { Turn };

    ghost use Rattle.clk_warp.specs.TurnSeats.{turn_of, IsSeated};

    ghost view = { turn_of };

    ghost invariant = { IsSeated };
}

impl TurnSeat {
    /// The last lock ticket. The seat has drawn one.
    pub fn ticket(&self) -> u64
        requires { IsSome self.now.ticket }
        ensures { self.now.ticket ≡ Some result }
    {
        self.ticket.unwrap()
    }
}
