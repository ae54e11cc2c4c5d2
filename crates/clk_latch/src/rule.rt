//! What the seats know, the rule over it, and what each step does to it.
use atomic_table::{Join, Play, Split, TableRule};
use clk_machine::Published;
use std::collections::LinkedList;
use std::marker::{Brand, PhantomData};

// How a turn began: the ticket that its reading had drawn, and the number of the record that it found current. No
// value of it is made.
pub struct TurnBegin {
    pub ticket: u64,
    pub rec: u32,
}

// What a seat knows. No value of it is made.
pub struct Knows {
    // Whether it has the owner's right, and how many updates are left to it.
    pub owner: bool,
    pub left: u64,
    // The records that it has seen, and how each turn of its readings began.
    pub records: LinkedList<Published>,
    pub begins: LinkedList<TurnBegin>,
    // A sequence that was reached, the one at which its last turn began, and what it wrote to the idle copy.
    pub seen: u64,
    pub at: u64,
    pub wrote: LinkedList<u64>,
    // After a join, whether both seats had the right, and the records of the seat that was let go.
    pub twice: bool,
    pub told: LinkedList<Published>,
}

// What a latch is made with: record 0, and the number of updates.
#[derive(Clone, Copy)]
pub struct Opening {
    pub zero: Published,
    pub updates: u32,
}

pub struct TwoCopies;

impl TableRule<(), Knows, Opening> for TwoCopies {
    ghost use Rattle.clk_latch.specs.LatchRule.{Latched, knows_first};

    ghost holds = { λ _. Latched };

    ghost first = { λ o. knows_first o.zero o.updates };
}

// The ticket that a reading drew before its first turn. Its caller picks it, since a load is told nothing.
pub(crate) trait Drawn {
    ghost use Rattle.std.specs.Prelude.{ℕ};

    ghost ticket_is: { ℕ };
}

impl Drawn for Brand {
    ghost ticket_is = { 0 };
}

// The load of the sequence at the beginning of a turn.
pub(crate) struct Begin<D> {
    drawn: PhantomData<D>,
}

impl<D: Drawn> Play<(), Knows> for Begin<D> {
    ghost use Rattle.clk_latch.specs.LatchRule.{Began};

    ghost then = { Began D.ticket_is };
}

// The loads of the two words of a copy.
pub(crate) struct LoadCyc;

impl Play<(), Knows> for LoadCyc {
    ghost use Rattle.clk_latch.specs.LatchRule.{Loaded, IsCyc};

    ghost then = { λ _. Loaded IsCyc };
}

pub(crate) struct LoadNs;

impl Play<(), Knows> for LoadNs {
    ghost use Rattle.clk_latch.specs.LatchRule.{Loaded, IsNs};

    ghost then = { λ _. Loaded IsNs };
}

// The load of the sequence at the end of a turn.
pub(crate) struct Close;

impl Play<(), Knows> for Close {
    ghost use Rattle.clk_latch.specs.LatchRule.{Closed};

    ghost then = { Closed };
}

// A store to the idle copy.
pub(crate) struct Write;

impl Play<(), Knows> for Write {
    ghost use Rattle.clk_latch.specs.LatchRule.{Put};

    ghost then = { Put };
}

// The record that a raise of the sequence publishes. Its caller picks it, since a step is told numbers alone.
pub(crate) trait New {
    ghost use Rattle.clk_machine.specs.declared.reading.Published.{Published};

    ghost record_is: { Published };
}

impl New for Brand {
    ghost use Rattle.std.specs.Prelude.{pos};

    ghost record_is = { record { rec = 0; ticket = 0; cyc = 0; ns = pos 0 } };
}

// The raise of the sequence once a new record is in the idle copy.
pub(crate) struct Publish<N> {
    new: PhantomData<N>,
}

impl<N: New> Play<(), Knows> for Publish<N> {
    ghost use Rattle.std.specs.Prelude.{◌≡◌};
    ghost use Rattle.clk_latch.specs.LatchRule.{knows_published};

    ghost then = { λ _ before _ after. after ≡ (knows_published N.record_is before.0, before.1) };
}

// The raise of the sequence once the other copy has it too.
pub(crate) struct Settle;

impl Play<(), Knows> for Settle {
    ghost use Rattle.std.specs.Prelude.{◌≡◌};
    ghost use Rattle.clk_latch.specs.LatchRule.{knows_settled};

    ghost then = { λ _ before _ after. after ≡ (knows_settled before.0, before.1) };
}

pub(crate) struct Reader;

impl Split<Knows> for Reader {
    ghost use Rattle.clk_latch.specs.LatchRule.{knows_reader};

    ghost left = { λ v. v };

    ghost right = { knows_reader };
}

pub(crate) struct Both;

impl Join<Knows> for Both {
    ghost use Rattle.clk_latch.specs.LatchRule.{knows_both, knows_nothing};

    ghost both = { knows_both };

    ghost spent = { knows_nothing };
}

// A join tells nothing of its own, so this load tells what the rule says of the view.
pub(crate) struct Learn;

impl Play<(), Knows> for Learn {
    ghost use Rattle.clk_latch.specs.LatchRule.{Learnt};

    ghost then = { Learnt };
}
