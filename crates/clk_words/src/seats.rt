//! How seats come and go.
ghost use Rattle.std.specs.Prelude.{◌≡◌, ◌+◌, ◌^◌, ◌<◌};
ghost use Rattle.clk_words.specs.Kinds.{cpu_of};
ghost use Rattle.clk_words.specs.Views.{giver_view, given_view, joint_made};
ghost use Rattle.clk_words.specs.Knowing.{MaySplit};
ghost use Rattle.clk_words.specs.Held.{place_of};
ghost use Rattle.clk_words.specs.Calls.{Joins};

use crate::kind::SeatKind;
use crate::rule::{Gift, Give, Glue, Meet};
use crate::seat::Seat;
use crate::words::Words;
use std::marker::Brand;

impl Words {
    /// A new seat of this kind, with the next number. `seat` is the first one or was joined with it, and has the right
    /// to the kind: each `Owner` and `Watch` are given once. The kind's CPU is one of the words', and fewer than 2^32 -
    /// 1 seats were made. The new seat has seen what `seat` has. One load, which takes no memory and does not wait.
    pub fn split(&self, seat: &mut Seat, kind: SeatKind) -> Seat
        requires own { place_of seat.old ≡ self.now }
        requires right { MaySplit seat.old.view kind }
        requires cpu { cpu_of kind < self.now.start.cpus }
        requires room { seat.old.view.made + 1 < 2 ^ 32 }
        ensures old { seat.new ≡ record { table = self.now.table; view = giver_view kind seat.old.view } }
        ensures new { result ≡ record { table = self.now.table; view = given_view kind seat.old.view } }
    {
        self.give::<Brand>(seat, kind)
    }

    fn give<G: Gift>(&self, seat: &mut Seat, kind: SeatKind) -> Seat
        requires own { place_of seat.old ≡ self.now }
        requires right { MaySplit seat.old.view kind }
        requires cpu { cpu_of kind < self.now.start.cpus }
        requires room { seat.old.view.made + 1 < 2 ^ 32 }
        requires pick { G.kind ≡ kind }
        ensures old { seat.new ≡ record { table = self.now.table; view = giver_view kind seat.old.view } }
        ensures new { result ≡ record { table = self.now.table; view = given_view kind seat.old.view } }
    {
        let number = seat.made;
        let at = self.table.shared.split_seat::<Give<G>>(&mut seat.at);
        seat.made += 1;
        Seat {
            number,
            kind,
            made: 0,
            at,
        }
    }

    /// One seat in place of two: it shows the number, the CPU and the kind of `a`, and has the rights and the own lists
    /// of both. What either has seen begins what it has seen. Two loads, which take no memory and do not wait.
    pub fn join(&self, mut a: Seat, b: Seat) -> Seat
        requires first { place_of a ≡ self.now }
        requires second { place_of b ≡ self.now }
        ensures own { place_of result ≡ self.now }
        ensures joins { Joins a.view b.view result.view }
    {
        let made = either_made(a.made, b.made);
        self.table.shared.join_seat::<Glue>(&mut a.at, b.at);
        self.table.shared.load::<Meet>(&mut a.at, 0);
        Seat {
            number: a.number,
            kind: a.kind,
            made,
            at: a.at,
        }
    }
}

// How many seats were made, from the side that may split.
fn either_made(first: u32, second: u32) -> u32
    ensures { result ≡ joint_made first second }
{
    if first == 0 { second } else { first }
}
