//! One side of a warp run.
ghost use Rattle.std.specs.Prelude.{◌≡◌, ◌+◌, ◌^◌, ◌<◌, ◌≤◌, false, [], length};
ghost use mathlib.Core.List.{IsPrefix};
ghost use Rattle.clk_record.specs.Sides.{of_side};
ghost use Rattle.clk_record.specs.Falls.{is_ended};
ghost use Rattle.clk_warp.specs.Run.{limits_at};
ghost use Rattle.clk_warp.specs.Working.{readings_of, IsReady, Works};

use crate::lock::TurnLock;
use crate::patience::Patience;
use crate::seat::TurnSeat;
use clk_machine::{Gate, Machine};
use clk_record::Side;
use clk_ticket::TicketTable;
use std::sync::Wait;

/// What a side of a warp run made: how many readings.
#[derive(Clone, Copy, PartialEq, Eq, Debug)]
pub struct SideEnd {
    pub readings: u32,
}

// What a reading of a side showed, how many readings the side has made since, and whether this was its last.
#[derive(Clone, Copy)]
pub struct Turned {
    tsc: u64,
    readings: u32,
    ended: bool,
}

/// Runs one side of a warp run: its start reading and its turns, up to its last. The seat is the lock's seat of that
/// side, it is outside, has made no reading and has found both sides here. The ticket table, the machine and the CPU
/// are those of the lock's first state.
///
/// The gate is passed outside the lock before each turn, with the side's CPU as thread, the turn's number as operation,
/// and the counter at the side's reading before. It waits for the lock. After `check_tsc_warp` of Linux 6.1's
/// `arch/x86/kernel/tsc_sync.c`.
pub fn warp_worker<R: Wait, G: Gate>(
    rt: &R,
    side: Side,
    lock: &TurnLock,
    seat: TurnSeat,
    tickets: &TicketTable,
    machine: &Machine,
    cpu: u32,
    gate: &G,
) -> (SideEnd, TurnSeat)
    requires ready { IsReady lock.now side seat }
    requires none { readings_of seat.own ≡ [] }
    requires tickets { tickets.now.table ≡ lock.now.first.tickets }
    requires machine { machine.now ≡ lock.now.first.machine }
    requires cpu { cpu ≡ lock.now.first.cpu }
    ensures { Works lock.now side seat result.0.readings result.1 }
{
    let thread = match side {
        Side::Source => 0,
        Side::Target => cpu,
    };
    run_side(rt, side, thread, lock, seat, tickets, machine, gate)
}

// The same, with the side's CPU.
pub(crate) fn run_side<R: Wait, G: Gate>(
    rt: &R,
    side: Side,
    thread: u32,
    lock: &TurnLock,
    mut seat: TurnSeat,
    tickets: &TicketTable,
    machine: &Machine,
    gate: &G,
) -> (SideEnd, TurnSeat)
    requires ready { IsReady lock.now side seat }
    requires none { readings_of seat.own ≡ [] }
    requires tickets { tickets.now.table ≡ lock.now.first.tickets }
    requires machine { machine.now ≡ lock.now.first.machine }
    ensures { Works lock.now side seat result.0.readings result.1 }
{
    let mut patience = Patience::together();
    let mut turned = read_under(rt, side, lock, &mut seat, &mut patience, tickets, machine);
    for _ in rt.forever() {
        if turned.ended {
            let end = SideEnd {
                readings: turned.readings,
            };
            return (end, seat);
        }
        gate.pass(thread, turned.readings - 1, turned.tsc as i64);
        turned = read_under(rt, side, lock, &mut seat, &mut patience, tickets, machine);
    }
    unreachable!()
}

// One reading under the lock.
fn read_under<R: Wait>(
    rt: &R,
    side: Side,
    lock: &TurnLock,
    seat: &mut TurnSeat,
    patience: &mut Patience,
    tickets: &TicketTable,
    machine: &Machine,
) -> Turned
    requires ready { IsReady lock.now side seat.old }
    requires going { is_ended (limits_at lock.now.first) side (readings_of seat.old.own) ≡ false }
    requires tickets { tickets.now.table ≡ lock.now.first.tickets }
    requires machine { machine.now ≡ lock.now.first.machine }
    ensures ready { IsReady lock.now side seat.new }
    ensures grown { IsPrefix seat.old.known seat.new.known }
    ensures own { length seat.new.own ≡ length seat.old.own + 1 }
    ensures more { length (of_side side (readings_of seat.new.own)) ≡ length (of_side side (readings_of seat.old.own)) + 1 }
    ensures readings { result.readings ≡ length (of_side side (readings_of seat.new.own)) }
    ensures some { (1 ≤ result.readings) × (result.readings < 2 ^ 32) }
    ensures ended { result.ended ≡ is_ended (limits_at lock.now.first) side (readings_of seat.new.own) }
    ensures small { result.tsc < 2 ^ 50 }
{
    let mut state = lock.enter_by(rt, seat, patience);
    let reading = state.read(side, tickets, machine);
    let turned = Turned {
        tsc: reading.tsc,
        readings: state.made(side),
        ended: state.ended(side),
    };
    lock.leave(seat, state);
    turned
}
