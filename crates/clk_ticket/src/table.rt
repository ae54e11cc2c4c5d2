//! The word of tickets, and what its last number is.
ghost use Rattle.std.specs.Prelude.{◌≡◌, ◌≤◌, IfOk};
ghost use Rattle.clk_base.specs.Blocks.{Covers};
ghost use Rattle.clk_ticket.specs.Sizes.{most_tickets, size_of};
ghost use Rattle.clk_ticket.specs.Time.{fresh, share_of};

use crate::rule::{Budgets, Knows};
use crate::seat::TimeSeat;
use atomic_table::Table;
use std::alloc::{AllocError, Global};
use std::marker::Model;

/// The word that seats draw tickets from.
///
/// A contract sees which table it is, and `total`, the number of tickets that there are.
#[derive(Drop)]
pub struct TicketTable {
    pub(crate) table: Table<(), Knows, u64, Budgets, Global>,
}

impl Model for TicketTable {
    ghost use Rattle.std.specs.Prelude.{◌≡◌};
    ghost use Rattle.clk_ticket.specs.Time.{Tickets, tickets_code};

    ghost Value = { Tickets };

    ghost coded = { tickets_code };

    ghost view = { λ t. record { table = t.table.shared.table_id; total = t.table.shared.key } };

    ghost invariant = { λ t. (t.table.shared.table_id.words ≡ 1) × (t.table.shared.table_id.slots ≡ 0) };
}

impl TicketTable {
    /// A table of `total` tickets, at most 2^26, and the seat that has them all. The error is want of memory.
    pub fn new(alloc: Global, total: u64) -> Result<(TicketTable, TimeSeat), AllocError>
        requires { total ≤ most_tickets }
        ensures total { IfOk result (λ made. made.0.total ≡ total) }
        ensures seat { IfOk result (λ made. made.1 ≡ fresh made.0.table total 0) }
    {
        let (table, seat) = Table::of_words(alloc, &[0], &total)?;
        Ok((TicketTable { table }, TimeSeat { seat, left: total }))
    }

    /// How many tickets were drawn in all, at the end. The seat has to be what all others were joined into: its budget
    /// and the lengths of its blocks add up to the total of `new`. It takes no memory and does not wait.
    pub fn finish(self, seat: TimeSeat) -> u64
        requires own { seat.table ≡ self.table }
        requires whole { share_of seat ≡ self.total }
        ensures cover { Covers seat.blocks result }
        ensures size { size_of seat.blocks ≡ result }
    {
        let closed = self.table.close_with(seat.seat);
        let drawn = closed.word(0);
        closed.free();
        drawn
    }
}
