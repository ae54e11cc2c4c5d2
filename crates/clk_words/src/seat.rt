//! A thread's place at the words.
ghost use Rattle.std.specs.Prelude.{◌≡◌, ◌<◌};
ghost use Rattle.clk_words.specs.Kinds.{cpu_of};

use crate::kind::SeatKind;
use crate::view::View;
use clk_record::Step;
use std::marker::Model;

/// A thread's place at the clock words.
///
/// A contract sees it as a `Held`: `place` says which words it belongs to, and `view` is what it knows (`View`).
#[derive(Drop)]
pub struct Seat {
    pub(crate) number: u32,
    pub(crate) kind: SeatKind,
    pub(crate) made: u32,
    pub(crate) at: atomic_table::Seat<Step, View>,
}

impl Model for Seat {
    ghost use Rattle.clk_words.specs.Held.{Held};

    ghost Value = { Held };

    ghost use Rattle.clk_words.specs.WordSeats.{held_of, IsSeated};

    ghost view = { λ s. held_of s.at };

    ghost invariant = { λ s. IsSeated s.number s.kind s.made s.at.me.1 s.at.me.0 };
}

impl Seat {
    /// The number of the seat: 0 for the first one, and then 1, 2 and so on.
    pub fn number(&self) -> u32
        ensures { result ≡ self.now.view.number }
    {
        self.number
    }

    /// The CPU that the seat is on, which is one of the words'. The watchdog's seat shows CPU 0.
    pub fn cpu(&self) -> u32
        ensures cpu { result ≡ cpu_of self.now.view.kind }
        ensures within { result < self.now.view.start.cpus }
    {
        match self.kind {
            SeatKind::Owner(cpu) | SeatKind::Reader(cpu) => cpu,
            SeatKind::Watch => 0,
        }
    }

    /// What the seat is for. A seat that was joined shows the kind of the first.
    pub fn kind(&self) -> SeatKind
        ensures { result ≡ self.now.view.kind }
    {
        self.kind
    }
}
