//! What the seats know, the rule over it, and what each step does to it.
use atomic_table::{Join, Play, Split, TableRule};
use clk_base::Block;
use std::collections::LinkedList;
use std::marker::{Brand, PhantomData};

// What a seat knows. No value of it is made.
pub struct Knows {
    pub left: u64,
    pub blocks: LinkedList<Block>,
    pub seen: u64,
}

// The key is the number of tickets that there are.
pub struct Budgets;

impl TableRule<(), Knows, u64> for Budgets {
    ghost use Rattle.clk_ticket.specs.TicketRule.{Kept, knows_budget};

    ghost holds = { Kept };

    ghost first = { λ total. knows_budget total 0 };
}

// The number drawn is the number added.
pub(crate) struct Draw;

impl Play<(), Knows> for Draw {
    ghost use Rattle.clk_ticket.specs.TicketRule.{Drew};

    ghost then = { Drew };
}

// A join tells nothing of its own, so this load tells what the rule says of the view.
pub(crate) struct Look;

impl Play<(), Knows> for Look {
    ghost use Rattle.clk_ticket.specs.TicketRule.{Looked};

    ghost then = { Looked };
}

// The budget that a split gives away. Its caller picks it, since a split has no argument of its own.
pub(crate) trait Part {
    ghost use Rattle.std.specs.Prelude.{ℕ};

    ghost part: { ℕ };
}

impl Part for Brand {
    ghost part = { 0 };
}

pub(crate) struct Cut<P> {
    part: PhantomData<P>,
}

impl<P: Part> Split<Knows> for Cut<P> {
    ghost use Rattle.clk_ticket.specs.TicketRule.{knows_less, knows_budget};

    ghost left = { knows_less P.part };

    ghost right = { λ v. knows_budget P.part v.seen };
}

pub(crate) struct Both;

impl Join<Knows> for Both {
    ghost use Rattle.clk_ticket.specs.TicketRule.{knows_both, knows_budget};

    ghost both = { knows_both };

    ghost spent = { knows_budget 0 0 };
}
