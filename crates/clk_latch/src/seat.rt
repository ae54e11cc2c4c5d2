//! A thread's seat at the latch over words.
use crate::rule::Knows;
use atomic_table::Seat;
use clk_machine::Published;
use std::marker::Model;

/// A thread's place at a [`crate::Latch`]. The owner's has its current record at hand, and a reader's nothing.
///
/// A contract sees it as a `Place`: `latch` says which latch it belongs to, and `epoch` what it has of it: whether it
/// has the owner's right, the updates that are left to it, the records that it has seen, and its begins.
#[derive(Drop)]
pub struct LatchSeat {
    pub(crate) seat: Seat<(), Knows>,
    pub(crate) current: Option<Published>,
}

impl Model for LatchSeat {
    ghost use Rattle.clk_latch.specs.Epoch.{Place, place_code};

    ghost Value = { Place };

    ghost coded = { place_code };

    ghost use Rattle.clk_latch.specs.LatchSeats.{place_of, IsSeated};

    ghost view = { λ s. place_of s.seat };

    ghost invariant = { λ s. IsSeated s.current s.seat };
}
