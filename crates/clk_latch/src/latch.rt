//! The latch over words.
ghost use Rattle.std.specs.Prelude.{◌≡◌, ◌≤◌, IfOk};
ghost use Rattle.clk_latch.specs.Epoch.{owner_of};
ghost use Rattle.clk_latch.specs.Calls.{IsRecordZero};

use crate::convert::{cycles_at, ns_since};
use crate::epochs::Epochs;
use crate::rule::{Both, Knows, Learn, Opening, Reader, TwoCopies};
use crate::seat::LatchSeat;
use atomic_table::Table;
use clk_machine::{CpuCounter, Published, RawReading};
use clk_num::bits_of;
use clk_ticket::{TicketTable, TimeSeat};
use std::alloc::{AllocError, Global};
use std::marker::Model;

// Where the words are: the sequence, and two copies of a counter value and its ns.
pub(crate) const SEQUENCE: usize = 0;

pub(crate) const FIRST_COPY: usize = 1;

pub(crate) const COPY_WORDS: usize = 2;

pub(crate) const SECOND_COPY: usize = FIRST_COPY + COPY_WORDS;

/// The latch over words. A contract sees which table they are.
#[derive(Drop)]
pub struct Latch {
    pub(crate) table: Table<(), Knows, Opening, TwoCopies, Global>,
}

impl Model for Latch {
    ghost use Rattle.std.specs.Prelude.{◌≡◌};
    ghost use Rattle.atomic_table.specs.Seated.{TableId, table_id_coded};

    ghost Value = { TableId };

    ghost coded = { table_id_coded };

    ghost view = { λ l. l.table.shared.table_id };

    ghost invariant = { λ l. (l.table.shared.table_id.words ≡ 5) × (l.table.shared.table_id.slots ≡ 0) };
}

impl Latch {
    /// A latch with record 0 of a machine, for at most 1,024 updates, and the owner's seat. The error is want of
    /// memory.
    pub fn new(
        alloc: Global,
        zero: Published,
        updates: u32,
    ) -> Result<(Latch, LatchSeat), AllocError>
        requires zero { IsRecordZero zero }
        requires updates { updates ≤ 1024 }
        ensures own { IfOk result (λ made. made.1.latch ≡ made.0) }
        ensures seat { IfOk result (λ made. made.1.epoch ≡ owner_of zero updates) }
    {
        let ns = bits_of(zero.ns);
        let (table, seat) = Table::of_words(
            alloc,
            &[0, zero.cyc, ns, 0, 0],
            &Opening { zero, updates },
        )?;
        let current = Some(zero);
        Ok((Latch { table }, LatchSeat { seat, current }))
    }
}

impl Epochs for Latch {
    type Seat = LatchSeat;

    ghost use Rattle.std.specs.Prelude.{◌≡◌};

    ghost fits = { λ l s. s.latch ≡ l };

    ghost epoch = { λ s. s.epoch };

    fn read(
        &self,
        seat: &mut LatchSeat,
        tickets: &TicketTable,
        time: &mut TimeSeat,
        counter: CpuCounter<'_>,
    ) -> RawReading {
        let ticket = tickets.draw(time, 1);
        let cyc = cycles_at(counter, ticket);
        let epoch = self.current(&mut seat.seat, ticket);
        RawReading {
            ticket,
            cyc,
            rec: epoch.rec,
            ns: ns_since(counter.machine, epoch.cyc, &epoch.ns, cyc),
        }
    }

    fn update(
        &self,
        seat: &mut LatchSeat,
        tickets: &TicketTable,
        time: &mut TimeSeat,
        counter: CpuCounter<'_>,
    ) -> Published {
        let ticket = tickets.draw(time, 1);
        let cyc = cycles_at(counter, ticket);
        let last = seat.current.unwrap();
        let new = Published {
            rec: last.rec + 1,
            ticket,
            cyc,
            ns: ns_since(counter.machine, last.cyc, &last.ns, cyc),
        };
        self.publish(&mut seat.seat, &new);
        seat.current = Some(new);
        new
    }

    fn split(&self, seat: &mut LatchSeat) -> LatchSeat {
        let reader = self.table.shared.split_seat::<Reader>(&mut seat.seat);
        LatchSeat {
            seat: reader,
            current: None,
        }
    }

    fn join(&self, mut a: LatchSeat, b: LatchSeat) -> LatchSeat {
        self.table.shared.join_seat::<Both>(&mut a.seat, b.seat);
        self.table.shared.load::<Learn>(&mut a.seat, SEQUENCE);
        LatchSeat {
            seat: a.seat,
            current: a.current.or(b.current),
        }
    }
}
