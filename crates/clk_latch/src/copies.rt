//! An update's stores to the words.
ghost use Rattle.std.specs.Prelude.{◌≡◌, ◌%◌, ◌≤◌, true, []};
ghost use Rattle.clk_latch.specs.LatchRule.{idle, IsSmallIn, knows_published, knows_settled};
ghost use Rattle.clk_latch.specs.Turns.{HasWritten, MayPublish, IsWritten, EndsWith};

use crate::latch::{FIRST_COPY, Latch, SECOND_COPY, SEQUENCE};
use crate::rule::{Knows, New, Publish, Settle, Write};
use atomic_table::Seat;
use clk_machine::Published;
use clk_num::bits_of;
use std::marker::Brand;

impl Latch {
    /// Publishes a record: the second copy gets it, the sequence is raised, the first copy gets it, and the sequence is
    /// raised again. Readers use the copy that is not written.
    pub(crate) fn publish(&self, seat: &mut Seat<(), Knows>, new: &Published)
        requires own { seat.old.table_id ≡ self.now }
        requires may { MayPublish new.now seat.old.me.0 }
        ensures own { seat.new.table_id ≡ seat.old.table_id }
        ensures is { seat.new.me ≡ (knows_settled (knows_published new.now seat.old.me.0), seat.old.me.1) }
    {
        self.write(seat, SECOND_COPY, new);
        self.raise::<Brand>(seat, new);
        self.write(seat, FIRST_COPY, new);
        self.settle(seat, new);
    }

    /// The idle copy gets a record.
    fn write(&self, seat: &mut Seat<(), Knows>, copy: usize, new: &Published)
        requires own { seat.old.table_id ≡ self.now }
        requires owner { seat.old.me.0.owner ≡ true }
        requires copy { copy ≡ idle seat.old.me.0.seen }
        requires idle { seat.old.me.0.wrote ≡ [] }
        ensures own { seat.new.table_id ≡ seat.old.table_id }
        ensures written { HasWritten new.now seat.old.me seat.new.me }
    {
        self.table.shared.store::<Write>(seat, copy, new.cyc);
        let word = bits_of(new.ns);
        self.table.shared.store::<Write>(seat, copy + 1, word);
    }

    /// The record in the idle copy becomes current, and the other copy becomes idle.
    fn raise<N: New>(&self, seat: &mut Seat<(), Knows>, new: &Published)
        requires own { seat.old.table_id ≡ self.now }
        requires pick { N.record_is ≡ new.now }
        requires written { IsWritten new.now seat.old.me.0 }
        requires left { 1 ≤ seat.old.me.0.left }
        requires even { seat.old.me.0.seen % 2 ≡ 0 }
        requires small { IsSmallIn seat.old.me.0.records new.now }
        ensures own { seat.new.table_id ≡ seat.old.table_id }
        ensures is { seat.new.me ≡ (knows_published new.now seat.old.me.0, seat.old.me.1) }
    {
        self.table.shared.fetch_add::<Publish<N>>(seat, SEQUENCE, 1);
    }

    /// The current record is in both copies, and the second one becomes idle.
    fn settle(&self, seat: &mut Seat<(), Knows>, new: &Published)
        requires own { seat.old.table_id ≡ self.now }
        requires written { IsWritten new.now seat.old.me.0 }
        requires last { EndsWith seat.old.me.0.records new.now }
        requires odd { seat.old.me.0.seen % 2 ≡ 1 }
        ensures own { seat.new.table_id ≡ seat.old.table_id }
        ensures is { seat.new.me ≡ (knows_settled seat.old.me.0, seat.old.me.1) }
    {
        self.table.shared.fetch_add::<Settle>(seat, SEQUENCE, 1);
    }
}
