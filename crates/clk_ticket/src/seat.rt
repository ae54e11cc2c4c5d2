//! A thread's place at the word of tickets.
ghost use Rattle.std.specs.Prelude.{◌≡◌};

use crate::rule::Knows;
use atomic_table::Seat;
use std::marker::Model;

/// A thread's place at a `TicketTable`, with a budget of tickets. It has no bytes but that number.
///
/// A contract sees it as a `Time`: `table` says which table it belongs to, `left` is its budget, `blocks` are the
/// blocks that it drew and those that it took over by joins, in that order, and `seen` is a number that the word had
/// reached.
#[derive(Drop)]
pub struct TimeSeat {
    pub(crate) seat: Seat<(), Knows>,
    pub(crate) left: u64,
}

impl Model for TimeSeat {
    ghost use Rattle.clk_ticket.specs.Time.{Time, time_code};

    ghost Value = { Time };

    ghost coded = { time_code };

    ghost use Rattle.clk_ticket.specs.TimeSeats.{time_of, IsSeated};

    ghost view = { λ t. time_of t.seat };

    ghost invariant = { λ t. IsSeated t.left t.seat };
}

impl TimeSeat {
    /// How many tickets the seat may still draw. It takes no memory and does not wait.
    pub fn left(&self) -> u64
        ensures { result ≡ self.now.left }
    {
        self.left
    }
}
