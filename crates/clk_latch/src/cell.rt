//! The latch over one cell of several words.
ghost use Rattle.std.specs.Prelude.{◌≡◌, ◌+◌, ◌-◌, ◌*◌, ◌<◌, ◌≤◌, IfOk, [], length};
ghost use Rattle.crossbeam_utils.specs.Seq.{cell_view};
ghost use Rattle.clk_latch.specs.Epoch.{owner_of};
ghost use Rattle.clk_latch.specs.Calls.{IsRecordZero};
ghost use Rattle.clk_latch.specs.LatchRule.{knows_first, knows_published, knows_settled};
ghost use Rattle.clk_latch.specs.CellRule.{MayStore, knows_stored, knows_unopened};
ghost use Rattle.clk_latch.specs.Turns.{Went, HasCurrent, BeganLast, MayPublish};

use crate::cell_rule::{CellRecord, Find, OneCell, Store, Stored, Tell, Whole};
use crate::cell_seat::{CellPass, CellSeat};
use crate::convert::{cycles_at, ns_since};
use crate::epochs::Epochs;
use crate::rule::{Both, Drawn, Knows, Reader};
use crate::turn::Current;
use clk_machine::{CpuCounter, Published, RawReading};
use clk_num::{bits_of, value_of_bits};
use clk_ticket::{TicketTable, TimeSeat};
use crossbeam_utils::atomic::seq_cell::RuledSeqCell;
use std::alloc::{AllocError, Global};
use std::marker::{Brand, Model};
use std::sync::Wait;

type Cell = RuledSeqCell<CellRecord, Knows, OneCell, 3, Global>;

/// The latch over a cell, for a user whose readers may wait. The program itself uses [`crate::Latch`], whose readers
/// never wait, as those of `sched_clock` in Linux 6.1 may not.
///
/// A reading that meets another thread at the cell takes the cell's lock: it waits until that is free, and returns if
/// the calls of the cell do. An update takes the lock too. The latch keeps the runtime value that those calls take. No
/// call but [`CellLatch::new`] takes memory. A contract sees which cell it is.
#[derive(Drop)]
pub struct CellLatch<'a, R: Wait> {
    pub(crate) rt: &'a R,
    pub(crate) cell: Cell,
}

impl<'a, R: Wait> Model for CellLatch<'a, R> {
    ghost use Rattle.atomic_table.specs.Seated.{TableId, table_id_coded};

    ghost Value = { TableId };

    ghost coded = { table_id_coded };

    ghost view = { λ l. l.cell.table.shared.table_id };
}

impl<'a, R: Wait> CellLatch<'a, R> {
    /// A latch with record 0 of a machine, for at most 1,024 updates, and the owner's seat. The error is want of
    /// memory. It may wait on the cell, though no other thread has it yet.
    pub fn new(
        rt: &'a R,
        alloc: Global,
        zero: Published,
        updates: u32,
    ) -> Result<(CellLatch<'a, R>, CellSeat), AllocError>
        requires zero { IsRecordZero zero }
        requires updates { updates ≤ 1024 }
        ensures own { IfOk result (λ made. made.1.latch ≡ made.0) }
        ensures seat { IfOk result (λ made. made.1.epoch ≡ owner_of zero updates) }
    {
        let none = CellRecord {
            rec: 0,
            cyc: 0,
            ns: 0,
        };
        let (cell, mut pass) = Cell::ruled(alloc, none)?;
        let latch = CellLatch { rt, cell };
        latch.open::<Brand>(&mut pass, &zero, updates);
        let current = Some(zero);
        Ok((latch, CellSeat { pass, current }))
    }

    /// Record 0 is written.
    fn open<S: Stored>(&self, pass: &mut CellPass, zero: &Published, updates: u32)
        requires own { pass.old.table_id ≡ self.now }
        requires pick { S.record_is ≡ zero.now }
        requires left { S.left_is ≡ updates }
        requires zero { IsRecordZero zero.now }
        requires updates { updates ≤ 1024 }
        requires unopened { cell_view pass.old ≡ knows_unopened }
        ensures own { pass.new.table_id ≡ pass.old.table_id }
        ensures is { cell_view pass.new ≡ knows_first zero.now updates }
    {
        self.store::<S>(
            pass,
            CellRecord {
                rec: 0,
                cyc: zero.cyc,
                ns: bits_of(zero.ns),
            },
        );
    }

    /// The record that follows is written.
    fn publish<S: Stored>(&self, pass: &mut CellPass, new: &Published)
        requires own { pass.old.table_id ≡ self.now }
        requires pick { S.record_is ≡ new.now }
        requires left { S.left_is ≡ (cell_view pass.old).left - 1 }
        requires may { MayPublish new.now (cell_view pass.old) }
        requires number { new.now.rec ≡ length (cell_view pass.old).records }
        requires few { (cell_view pass.old).seen + 2 * (cell_view pass.old).left ≤ 2048 }
        ensures own { pass.new.table_id ≡ pass.old.table_id }
        ensures is { cell_view pass.new ≡ knows_settled (knows_published new.now (cell_view pass.old)) }
    {
        self.store::<S>(
            pass,
            CellRecord {
                rec: u64::from(new.rec),
                cyc: new.cyc,
                ns: bits_of(new.ns),
            },
        );
    }

    fn store<S: Stored>(&self, pass: &mut CellPass, new: CellRecord)
        requires own { pass.old.table_id ≡ self.now }
        requires may { MayStore new S.record_is S.left_is (cell_view pass.old) }
        ensures own { pass.new.table_id ≡ pass.old.table_id }
        ensures is { cell_view pass.new ≡ knows_stored S.record_is S.left_is (cell_view pass.old) }
    {
        self.cell.swap_as::<Store<S>, R>(self.rt, pass, new);
    }

    /// The record that was current when the cell was read. The reading has drawn its ticket, which the read is told.
    fn current<D: Drawn>(&self, pass: &mut CellPass, ticket: u64) -> Current
        requires own { pass.old.table_id ≡ self.now }
        requires pick { D.ticket_is ≡ ticket }
        requires some_seen { 0 < length (cell_view pass.old).records }
        ensures own { pass.new.table_id ≡ pass.old.table_id }
        ensures went { Went ticket (cell_view pass.old, []) (cell_view pass.new, []) }
        ensures begun { BeganLast ticket (cell_view pass.old).begins (cell_view pass.new).begins result.rec }
        ensures current { HasCurrent (cell_view pass.new) result }
    {
        let found = self.cell.load_as::<Find<D>, R>(self.rt, pass);
        Current {
            rec: found.rec as u32,
            cyc: found.cyc,
            ns: value_of_bits(found.ns),
        }
    }
}

impl<'a, R: Wait> Epochs for CellLatch<'a, R> {
    type Seat = CellSeat;

    ghost use Rattle.std.specs.Prelude.{◌≡◌};

    ghost fits = { λ l s. s.latch ≡ l };

    ghost epoch = { λ s. s.epoch };

    fn read(
        &self,
        seat: &mut CellSeat,
        tickets: &TicketTable,
        time: &mut TimeSeat,
        counter: CpuCounter<'_>,
    ) -> RawReading {
        let ticket = tickets.draw(time, 1);
        let cyc = cycles_at(counter, ticket);
        let epoch = self.current::<Brand>(&mut seat.pass, ticket);
        RawReading {
            ticket,
            cyc,
            rec: epoch.rec,
            ns: ns_since(counter.machine, epoch.cyc, &epoch.ns, cyc),
        }
    }

    fn update(
        &self,
        seat: &mut CellSeat,
        tickets: &TicketTable,
        time: &mut TimeSeat,
        counter: CpuCounter<'_>,
    ) -> Published {
        let ticket = tickets.draw(time, 1);
        let cyc = cycles_at(counter, ticket);
        let last = seat.current.unwrap();
        let new = Published {
            rec: last.rec + 1,
            ticket,
            cyc,
            ns: ns_since(counter.machine, last.cyc, &last.ns, cyc),
        };
        self.publish::<Brand>(&mut seat.pass, &new);
        seat.current = Some(new);
        new
    }

    fn split(&self, seat: &mut CellSeat) -> CellSeat {
        CellSeat {
            pass: self.cell.split_pass::<Reader>(&mut seat.pass),
            current: None,
        }
    }

    // A pass that has read the cell cannot be joined, so all that it knows goes to a new one first.
    fn join(&self, a: CellSeat, b: CellSeat) -> CellSeat {
        let mut pass = a.pass;
        let mut spent = b.pass;
        let other = self.cell.split_pass::<Whole>(&mut spent);
        self.cell.join_pass::<Both>(&mut pass, other);
        self.cell.load_as::<Tell, R>(self.rt, &mut pass);
        CellSeat {
            pass,
            current: a.current.or(b.current),
        }
    }
}
