//! What the seats of a warp lock know, the rule over it, and what each step does to it.
use crate::section::Section;
use crate::state::WarpState;
use atomic_table::{Join, Play, Split, TableRule};
use clk_record::Side;
use std::collections::LinkedList;
use std::snapshot::Snapshot;

// What a seat is: the first one of a lock, one of a side, what two were joined into, or what a join left.
pub enum Role {
    First,
    Of(Side),
    Joined,
    Spent,
}

// Where a seat is: outside, with a ticket, called by it, with the state, or outside again with the lock still to be
// handed on.
pub enum Stage {
    Away,
    Waiting,
    Called,
    Inside,
    Given,
}

// What a seat knows. No value of it is made.
pub struct View {
    // The first state of the lock, which all seats but the spent one know.
    pub first: Option<WarpState>,
    pub role: Role,
    pub stage: Stage,
    pub ticket: u64,
    // The sections that it has found or made, those that it made, and after a join what the other seat had found or
    // made.
    pub known: LinkedList<Section>,
    pub own: LinkedList<Section>,
    pub told: LinkedList<Section>,
}

// The key is the first state.
pub struct TakingTurns;

impl TableRule<Option<WarpState>, View, Snapshot<WarpState>> for TakingTurns {
    ghost use Rattle.clk_warp.specs.LockRule.{Kept, knows_first};

    ghost holds = { λ key. Kept key.value };

    ghost first = { λ key. knows_first key.value };
}

// A load of a lock ticket, the next one or the one that is served, which tells nothing.
pub(crate) struct Look;

impl Play<Option<WarpState>, View> for Look {
    ghost use Rattle.std.specs.Prelude.{◌≡◌};

    ghost then = { λ _ before _ after. after ≡ before };
}

// The exchange of the next lock ticket to the one after.
pub(crate) struct Draw;

impl Play<Option<WarpState>, View> for Draw {
    ghost use Rattle.clk_warp.specs.LockRule.{Drew};

    ghost then = { Drew };
}

// A load of the lock ticket that is served.
pub(crate) struct Call;

impl Play<Option<WarpState>, View> for Call {
    ghost use Rattle.clk_warp.specs.LockRule.{Called};

    ghost then = { Called };
}

// A load with which the one that is served takes the state.
pub(crate) struct Take;

impl Play<Option<WarpState>, View> for Take {
    ghost use Rattle.clk_warp.specs.LockRule.{Took};

    ghost then = { Took };
}

// A load with which it gives the state back, changed by one section.
pub(crate) struct Give;

impl Play<Option<WarpState>, View> for Give {
    ghost use Rattle.clk_warp.specs.LockRule.{Gave};

    ghost then = { Gave };
}

// The raise of the lock ticket that is served.
pub(crate) struct Raise;

impl Play<Option<WarpState>, View> for Raise {
    ghost use Rattle.clk_warp.specs.LockRule.{Raised};

    ghost then = { Raised };
}

// The first seat becomes the source's, and a new one the target's.
pub(crate) struct Sides;

impl Split<View> for Sides {
    ghost use Rattle.clk_record.specs.declared.warp.Side.TheVariants.{Source, Target};
    ghost use Rattle.clk_warp.specs.LockRule.{knows_side};

    ghost left = { knows_side Source };

    ghost right = { knows_side Target };
}

pub(crate) struct Both;

impl Join<View> for Both {
    ghost use Rattle.clk_warp.specs.LockRule.{knows_both, knows_nothing};

    ghost both = { knows_both };

    ghost spent = { knows_nothing };
}
