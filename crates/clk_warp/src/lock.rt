//! The warp lock: lock tickets are drawn from one word, and another says which one is served.
ghost use Rattle.std.specs.Prelude.{◌≡◌, ◌≢◌, ◌+◌, ◌^◌, ◌<◌, false, true, [], IfOk, IfErr, Some, None};
ghost use Rattle.clk_record.specs.declared.warp.Side.TheVariants.{Source, Target};
ghost use Rattle.clk_warp.specs.Sections.{after};
ghost use Rattle.clk_warp.specs.Turns.{fresh, Enters, IsChanged, Leaves, Closes};
ghost use Rattle.clk_warp.specs.LockRule.{knows_first};
ghost use Rattle.clk_warp.specs.Locking.{IsWaiting, IsOutside, HasDrawn, HasBeenCalled};

use crate::patience::{Patience, rest_together};
use crate::seat::TurnSeat;
use crate::state::WarpState;
use crate::view::{Both, Call, Draw, Give, Look, Raise, Sides, Take, TakingTurns, View};
use atomic_table::{Refused, Seat, Table};
use clk_machine::Machine;
use clk_num::List;
use clk_record::Side;
use std::alloc::{AllocError, Global};
use std::hint::spin_loop;
use std::marker::Model;
use std::snapshot::Snapshot;
use std::sync::Wait;

// Where the words are, and the slot.
const NEXT: usize = 0;

const SERVING: usize = 1;

const STATE: usize = 0;

/// A ticket lock over the state of a warp run, which two sides enter in turn. It serves them in the order in which they
/// drew their lock tickets, as the spinlock of Linux's `check_tsc_warp` does.
///
/// A contract sees which lock it is, and the first state that stood in it.
#[derive(Drop)]
pub struct TurnLock {
    pub(crate) table: Table<Option<WarpState>, View, Snapshot<WarpState>, TakingTurns, Global>,
}

impl Model for TurnLock {
    ghost use Rattle.std.specs.Prelude.{◌≡◌};
    ghost use Rattle.clk_warp.specs.Turns.{Lock};

    ghost Value = { Lock };

    ghost view = { λ l. record { table = l.table.shared.table_id; first = l.table.shared.key.value } };

    ghost invariant = { λ l. (l.table.shared.table_id.words ≡ 2) × (l.table.shared.table_id.slots ≡ 1) };
}

impl TurnLock {
    /// A lock with this state in it, which was made for the machine and has no sections, and the seats of the source
    /// and of the target. So it has no reading either. The error is want of memory, and hands the state back.
    pub fn new(
        alloc: Global,
        _machine: &Machine,
        state: WarpState,
    ) -> Result<(TurnLock, TurnSeat, TurnSeat), (AllocError, WarpState)>
        requires machine { state.machine ≡ _machine.now }
        requires sections { state.sections ≡ 0 }
        ensures first { IfOk result (λ made. made.0.first ≡ state) }
        ensures empty { IfOk result (λ made. made.0.first.readings ≡ []) }
        ensures source { IfOk result (λ made. made.1 ≡ fresh made.0 Source) }
        ensures target { IfOk result (λ made. made.2 ≡ fresh made.0 Target) }
        ensures back { IfErr result (λ e. e.1 ≡ state) }
    {
        let key = Snapshot::of(&state);
        let first = Snapshot::of(&state);
        let second = Snapshot::of(&state);
        let Ok(mut slots) = List::with_room(alloc, 1) else {
            return Err((AllocError, state));
        };
        slots.push(Some(state));
        match Table::new(alloc, &[0, 0], slots.into_vec(), &key) {
            Ok((table, seat)) => Ok(seated(TurnLock { table }, seat, first, second)),
            Err(Refused { mut slots }) => Err((AllocError, slots.pop().unwrap().unwrap())),
        }
    }

    /// Draws the next lock ticket at once, waits until it is served, and takes the state. The seat is outside. Where all
    /// lock tickets are drawn, 2^64 - 1 of them, it does not return.
    #[inline(always)]
    pub fn enter<R: Wait>(&self, rt: &R, seat: &mut TurnSeat) -> WarpState
        requires own { seat.old.lock ≡ self.now }
        requires outside { seat.old.inside ≡ false }
        ensures { Enters seat.old result seat.new }
    {
        self.enter_by(rt, seat, &mut Patience::new())
    }

    /// The same, with the patience of the side, by which it may wait until the other one has drawn too.
    #[inline(always)]
    pub(crate) fn enter_by<R: Wait>(
        &self,
        rt: &R,
        seat: &mut TurnSeat,
        patience: &mut Patience,
    ) -> WarpState
        requires own { seat.old.lock ≡ self.now }
        requires outside { seat.old.inside ≡ false }
        ensures { Enters seat.old result seat.new }
    {
        let ticket = self.draw(rt, &mut seat.seat);
        self.meet(rt, &mut seat.seat, patience.take_together());
        self.wait(rt, &mut seat.seat, ticket, patience);
        self.table.shared.load::<Take>(&mut seat.seat, SERVING);
        let state = self.table.shared.exchange(&mut seat.seat, STATE, None);
        seat.ticket = Some(ticket);
        seat.inside = true;
        state.unwrap()
    }

    // Tries the exchange again until one is done. At the last number it draws nothing, so no count wraps.
    #[inline(always)]
    fn draw<R: Wait>(&self, rt: &R, seat: &mut Seat<Option<WarpState>, View>) -> u64
        requires own { seat.old.table_id ≡ self.now.table }
        requires outside { IsOutside seat.old }
        ensures { HasDrawn seat.old result seat.new }
    {
        for _ in rt.forever() {
            let next = self.table.shared.load::<Look>(seat, NEXT);
            if next != u64::MAX
                && self
                    .table
                    .shared
                    .compare_exchange::<Draw>(seat, NEXT, next, next + 1)
                    == next
            {
                return next;
            }
            spin_loop();
        }
        unreachable!()
    }

    // Waits until its ticket is served.
    #[inline(always)]
    fn wait<R: Wait>(
        &self,
        rt: &R,
        seat: &mut Seat<Option<WarpState>, View>,
        ticket: u64,
        patience: &mut Patience,
    )
        requires own { seat.old.table_id ≡ self.now.table }
        requires waiting { IsWaiting seat.old ticket }
        ensures { HasBeenCalled seat.old seat.new }
    {
        let mut looks: u32 = 0;
        for _ in rt.forever() {
            if self.table.shared.load::<Call>(seat, SERVING) == ticket {
                patience.learn(looks);
                return;
            }
            looks = looks.saturating_add(1);
            patience.rest(looks);
        }
        unreachable!()
    }

    // Looks so often at most whether both sides have drawn. From then on each draws behind the other one, so their turns
    // alternate. The other one may have no thread of its own, and come later.
    fn meet<R: Wait>(&self, rt: &R, seat: &mut Seat<Option<WarpState>, View>, most: u32)
        requires own { seat.old.table_id ≡ self.now.table }
        ensures table { seat.new.table_id ≡ seat.old.table_id }
        ensures number { seat.new.id ≡ seat.old.id }
        ensures me { seat.new.me ≡ seat.old.me }
    {
        for looks in 0..most {
            if self.table.shared.load::<Look>(seat, NEXT) > 1 {
                return;
            }
            rest_together(rt, looks);
        }
    }

    /// Gives the state back, changed by one section since `enter` gave it, and hands the lock on. The seat is inside,
    /// and does not make a section of the other side. It takes no memory and does not wait.
    #[inline(always)]
    pub fn leave(&self, seat: &mut TurnSeat, state: WarpState)
        requires own { seat.old.lock ≡ self.now }
        requires inside { seat.old.inside ≡ true }
        requires changed { IsChanged seat.old.side (after seat.old.lock.first seat.old.known) state }
        ensures { Leaves seat.old state seat.new }
    {
        self.table
            .shared
            .exchange(&mut seat.seat, STATE, Some(state));
        self.table.shared.load::<Give>(&mut seat.seat, SERVING);
        self.table
            .shared
            .fetch_add::<Raise>(&mut seat.seat, SERVING, 1);
        seat.inside = false;
    }

    /// The state at the end, for the two seats of the lock, neither of which is inside. It takes no memory and does not
    /// wait.
    pub fn close(self, mut a: TurnSeat, b: TurnSeat) -> WarpState
        requires first { a.lock ≡ self }
        requires second { b.lock ≡ self }
        requires outside { (a.inside ≡ false) × (b.inside ≡ false) }
        ensures { Closes self.first a b result }
    {
        self.table.shared.join_seat::<Both>(&mut a.seat, b.seat);
        let mut closed = self.table.close_with(a.seat);
        let state = closed.take(STATE);
        closed.free();
        state.unwrap()
    }
}

// The two seats of a new lock.
fn seated(
    lock: TurnLock,
    mut seat: Seat<Option<WarpState>, View>,
    first: Snapshot<WarpState>,
    second: Snapshot<WarpState>,
) -> (TurnLock, TurnSeat, TurnSeat)
    requires own { seat.table_id ≡ lock.table }
    requires first_is { (first.value ≡ lock.first) × (second.value ≡ lock.first) }
    requires seat { seat.me ≡ (knows_first lock.first, []) }
    ensures lock { result.0 ≡ lock }
    ensures source { result.1 ≡ fresh lock Source }
    ensures target { result.2 ≡ fresh lock Target }
{
    let other = lock.table.shared.split_seat::<Sides>(&mut seat);
    let source = TurnSeat {
        seat,
        side: Side::Source,
        inside: false,
        ticket: None,
        first,
    };
    let target = TurnSeat {
        seat: other,
        side: Side::Target,
        inside: false,
        ticket: None,
        first: second,
    };
    (lock, source, target)
}
