//! The words: how they are made and how they end.
ghost use Rattle.std.specs.Prelude.{◌≡◌, ◌≤◌, ◌++◌, replicate, IfOk, if◌then◌else◌};
ghost use Rattle.clk_words.specs.Bounds.{IsOpening, IsTick};
ghost use Rattle.clk_words.specs.Views.{is_percpu, first_view};
ghost use Rattle.clk_words.specs.FirstWords.{pair_words, AreFirst};
ghost use Rattle.clk_words.specs.Knowing.{HasAll};
ghost use Rattle.clk_words.specs.Held.{place_of};
ghost use Rattle.clk_words.specs.Calls.{IsComplete};

use crate::closed::Closed;
use crate::kind::SeatKind;
use crate::opening::{Opening, Start};
use crate::rule::OneHistory;
use crate::seat::Seat;
use crate::view::View;
use atomic_table::Table;
use clk_num::{bits_of, word_of};
use clk_record::{Mode, Step};
use std::alloc::{AllocError, Global};
use std::marker::Model;
use std::snapshot::Snapshot;

/// The words of the clock: for each CPU its clock, its GTOD and its raw value, and the mode and the offset.
///
/// A contract sees which words they are, and what they began with.
#[derive(Drop)]
pub struct Words {
    pub(crate) cpus: u32,
    pub(crate) tick: i64,
    pub(crate) opens: i64,
    pub(crate) table: Table<Step, View, Start, OneHistory, Global>,
}

impl Model for Words {
    ghost use Rattle.clk_words.specs.Held.{Place};

    ghost Value = { Place };

    ghost use Rattle.clk_words.specs.WordSeats.{AreWords};

    ghost view = { λ w. record { table = w.table.shared.table_id; start = w.table.shared.key } };

    ghost invariant = { λ w. AreWords w.cpus w.tick w.opens w.table.shared.table_id w.table.shared.key };
}

impl Words {
    /// The words of `cpus` CPUs, at least one, for ticks of `tick` ns, 1 to 2^30. Each clock word begins at
    /// `tick_gtod + offset` of `start`, which wraps. The first seat has number 0, shows the kind `Reader(0)`, and holds
    /// the right to split and to give every kind. In a stable start it has seen neither a pair nor the offset, which
    /// the watchdog may change. The error is want of memory.
    pub fn new(
        alloc: Global,
        cpus: u32,
        tick: i64,
        start: Opening,
    ) -> Result<(Words, Seat), AllocError>
        requires cpus { 1 ≤ cpus }
        requires tick { IsTick tick }
        requires opening { IsOpening start }
        ensures start { IfOk result (λ made. made.0.start ≡ record { cpus = cpus; tick = tick; opening = start }) }
        ensures seat { IfOk result (λ made. made.1 ≡ record { table = made.0.table; view = first_view made.0.start }) }
    {
        let about = Start {
            cpus,
            tick,
            opening: start,
        };
        let words = first_words(alloc, &about)?;
        let (table, at) = Table::of_words(alloc, words.as_slice(), &about)?;
        let words = Words {
            cpus,
            tick,
            opens: start.tick_gtod.wrapping_add(start.offset),
            table,
        };
        let seat = Seat {
            number: 0,
            kind: SeatKind::Reader(0),
            made: 1,
            at,
        };
        Ok((words, seat))
    }

    /// The words at the end, with their whole history. The seat has the own list of every seat that was made. It takes
    /// no memory and does not wait.
    pub fn finish(self, seat: Seat) -> Closed
        requires own { place_of seat ≡ self }
        requires all { HasAll seat.view }
        ensures start { result.start ≡ self.start }
        ensures complete { IsComplete self.start seat.view result.history }
    {
        let Words {
            cpus,
            tick: _,
            opens,
            table,
        } = self;
        let last = Snapshot::of(&seat.at);
        let words = table.close_with(seat.at);
        Closed {
            cpus,
            opens,
            words,
            last,
        }
    }
}

// The clock of each CPU, at height 0, then its GTOD and its raw value, then the mode and the offset.
fn first_words(alloc: Global, start: &Start) -> Result<Vec<u64>, AllocError>
    ensures { IfOk result (λ words. AreFirst start.now words.items) }
{
    let opening = start.opening;
    let clock = word_of(0);
    let gtod = bits_of(opening.tick_gtod);
    let raw = bits_of(opening.tick_raw);
    let mut words = cpu_words(alloc, start.cpus, clock, gtod, raw)?;
    words.push(mode_word(opening.mode))?;
    words.push(bits_of(opening.offset))?;
    Ok(words)
}

fn cpu_words(
    alloc: Global,
    cpus: u32,
    clock: u64,
    gtod: u64,
    raw: u64,
) -> Result<Vec<u64>, AllocError>
    ensures { IfOk result (λ words. words.items ≡ replicate cpus clock ++ pair_words cpus gtod raw) }
{
    let mut words = vec![in alloc; clock; cpus as usize]?;
    for _ in 0..cpus {
        words.push(gtod)?;
        words.push(raw)?;
    }
    Ok(words)
}

fn mode_word(mode: Mode) -> u64
    ensures { result ≡ (if is_percpu mode then 1 else 0) }
{
    match mode {
        Mode::Stable => 0,
        Mode::PerCpu => 1,
    }
}
