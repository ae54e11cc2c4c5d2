//! A reading's turns over the words.
ghost use Rattle.std.specs.Prelude.{◌≡◌, ◌≤◌, ◌↔◌, IsTrue, true, [], ◌∷◌, ◌++◌};
ghost use Rattle.clk_latch.specs.LatchRule.{number, knows_later};
ghost use Rattle.clk_latch.specs.Turns.{Went, HasTurn, HasCurrent, BeganLast};

use crate::latch::{COPY_WORDS, FIRST_COPY, Latch, SEQUENCE};
use crate::rule::{Begin, Close, Drawn, Knows, LoadCyc, LoadNs};
use atomic_table::Seat;
use clk_num::value_of_bits;
use std::marker::Brand;

// What a turn found: the sequence, and the words of the copy that was to be used.
#[derive(Clone, Copy)]
pub(crate) struct Turn {
    pub(crate) sequence: u64,
    pub(crate) cyc: u64,
    pub(crate) ns: u64,
}

// A record that was current: its number, its counter value and its ns.
#[derive(Clone, Copy)]
pub(crate) struct Current {
    pub(crate) rec: u32,
    pub(crate) cyc: u64,
    pub(crate) ns: i64,
}

impl Latch {
    /// The record that was current when the last turn began. The reading has drawn its ticket, which each turn is told.
    /// Turns end because each further one began at a greater sequence.
    pub(crate) fn current(&self, seat: &mut Seat<(), Knows>, ticket: u64) -> Current
        requires { seat.old.table_id ≡ self.now }
        ensures own { seat.new.table_id ≡ seat.old.table_id }
        ensures went { Went ticket seat.old.me seat.new.me }
        ensures begun { BeganLast ticket seat.old.me.0.begins seat.new.me.0.begins result.rec }
        ensures current { HasCurrent seat.new.me.0 result }
    {
        loop {
            let turn = self.begin::<Brand>(seat, ticket);
            if self.close(seat) == turn.sequence {
                return Current {
                    rec: turn.sequence.div_ceil(2) as u32,
                    cyc: turn.cyc,
                    ns: value_of_bits(turn.ns),
                };
            }
        }
    }

    /// A turn up to its closing load.
    fn begin<D: Drawn>(&self, seat: &mut Seat<(), Knows>, ticket: u64) -> Turn
        requires own { seat.old.table_id ≡ self.now }
        requires pick { D.ticket_is ≡ ticket }
        ensures own { seat.new.table_id ≡ seat.old.table_id }
        ensures went { Went ticket seat.old.me seat.new.me }
        ensures later { seat.old.me.0.seen ≤ result.sequence }
        ensures begun { seat.new.me.0.begins ≡
            seat.old.me.0.begins ++ record { ticket = ticket; rec = number result.sequence } ∷ [] }
        ensures turn { HasTurn seat.new.me.0 result }
    {
        let sequence = self.table.shared.load::<Begin<D>>(seat, SEQUENCE);
        let copy = FIRST_COPY + COPY_WORDS * (sequence % 2) as usize;
        let cyc = self.table.shared.load::<LoadCyc>(seat, copy);
        let ns = self.table.shared.load::<LoadNs>(seat, copy + 1);
        Turn { sequence, cyc, ns }
    }

    /// A turn's closing load of the sequence.
    fn close(&self, seat: &mut Seat<(), Knows>) -> u64
        requires { seat.old.table_id ≡ self.now }
        ensures own { seat.new.table_id ≡ seat.old.table_id }
        ensures later { seat.old.me.0.seen ≤ result }
        ensures owner { seat.old.me.0.owner ≡ true → result ≡ seat.old.me.0.seen }
        ensures is { seat.new.me ≡ (knows_later result seat.old.me.0, seat.old.me.1) }
        ensures low { result ≤ 2048 }
    {
        self.table.shared.load::<Close>(seat, SEQUENCE)
    }
}
