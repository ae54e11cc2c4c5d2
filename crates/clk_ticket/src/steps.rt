//! What threads do with their seats.
ghost use Rattle.std.specs.Prelude.{◌≡◌, ◌+◌, ◌≤◌};
ghost use Rattle.clk_ticket.specs.Time.{share_of, fresh, Draws, without, both_of};

use crate::rule::{Both, Cut, Draw, Look, Part};
use crate::seat::TimeSeat;
use crate::table::TicketTable;
use std::marker::Brand;

impl TicketTable {
    /// Draws `n` consecutive tickets, at least one and at most what the seat has left, and answers the first. The block
    /// lies above all that the seat had seen, so the blocks that a seat draws rise. One `fetch_add`, which takes no
    /// memory and does not wait.
    pub fn draw(&self, seat: &mut TimeSeat, n: u64) -> u64
        requires own { seat.old.table ≡ self.now.table }
        requires within { (1 ≤ n) × (n ≤ seat.old.left) }
        ensures { Draws seat.old result n seat.new }
    {
        seat.left -= n;
        self.table.shared.fetch_add::<Draw>(&mut seat.seat, 0, n)
    }

    /// A new seat with `left` of the seat's budget, which has no blocks and has seen all that `seat` has seen. One
    /// load, which takes no memory and does not wait.
    pub fn split(&self, seat: &mut TimeSeat, left: u64) -> TimeSeat
        requires own { seat.old.table ≡ self.now.table }
        requires within { left ≤ seat.old.left }
        ensures seat { seat.new ≡ without left seat.old }
        ensures new { result ≡ fresh seat.old.table left seat.old.seen }
        ensures share { share_of seat.new + share_of result ≡ share_of seat.old }
    {
        self.cut::<Brand>(seat, left)
    }

    fn cut<P: Part>(&self, seat: &mut TimeSeat, left: u64) -> TimeSeat
        requires own { seat.old.table ≡ self.now.table }
        requires within { left ≤ seat.old.left }
        requires pick { P.part ≡ left }
        ensures seat { seat.new ≡ without left seat.old }
        ensures new { result ≡ fresh seat.old.table left seat.old.seen }
    {
        seat.left -= left;
        let part = self.table.shared.split_seat::<Cut<P>>(&mut seat.seat);
        TimeSeat { seat: part, left }
    }

    /// One seat in place of two: the budgets add up, the blocks are those of `a` and then those of `b`, and it has seen
    /// the greater of what both had seen. Two loads, which take no memory and do not wait.
    pub fn join(&self, mut a: TimeSeat, b: TimeSeat) -> TimeSeat
        requires first { a.table ≡ self.now.table }
        requires second { b.table ≡ self.now.table }
        ensures seat { result ≡ both_of a b }
        ensures share { share_of result ≡ share_of a + share_of b }
    {
        self.table.shared.join_seat::<Both>(&mut a.seat, b.seat);
        self.table.shared.load::<Look>(&mut a.seat, 0);
        TimeSeat {
            seat: a.seat,
            left: a.left + b.left,
        }
    }
}
