//! Threads that draw at once, and what their blocks cover.
ghost use Rattle.std.specs.Prelude.{◌≡◌, ◌*◌, IfOk, All, vec_len};
ghost use Rattle.clk_ticket.specs.Time.{fresh, share_of};

use crate::{TicketTable, TimeSeat, covering_blocks};
use clk_base::Block;
use std::alloc::{AllocError, Global};
use std::thread::{Threads, for_each_mut};

const THREADS: usize = 8;

const DRAWS: u64 = 10_000;

const LARGEST: u64 = 7;

// Enough for the draws of one thread.
const BUDGET: u64 = DRAWS * LARGEST;

const TOTAL: u64 = 8 * BUDGET;

#[test]
fn each_call_once(rt: HostRuntime) -> Result<(), AllocError> {
    let (tickets, mut seat) = TicketTable::new(rt.alloc(), 20)?;
    assert_eq!(rt; seat.left(), 20);
    assert_eq!(rt; tickets.draw(&mut seat, 3), 0);
    let mut other = tickets.split(&mut seat, 10);
    assert_eq!(rt; seat.left(), 7);
    assert_eq!(rt; other.left(), 10);
    assert_eq!(rt; tickets.draw(&mut other, 4), 3);
    assert_eq!(rt; tickets.draw(&mut seat, 7), 7);
    let whole = tickets.join(seat, other);
    assert_eq!(rt; whole.left(), 6);
    assert_eq!(rt; tickets.finish(whole), 14);
    covering_blocks();
    Ok(())
}

// A seat with the blocks that its draws answered.
#[derive(Drop)]
struct Worker {
    seat: TimeSeat,
    log: Vec<Block>,
}

impl Worker {
    // Blocks of sizes 1 to 7 in turn, as far as there is memory.
    fn work(&mut self, tickets: &TicketTable)
        requires { self.old.seat ≡ fresh tickets.now.table BUDGET self.old.seat.seen }
        ensures own { self.new.seat.table ≡ tickets.now.table }
        ensures share { share_of self.new.seat ≡ BUDGET }
    {
        for i in 0..DRAWS {
            let count = 1 + i % LARGEST;
            let first = tickets.draw(&mut self.seat, count);
            if self.log.push(Block { first, count }).is_err() {
                return;
            }
        }
    }
}

fn workers(
    alloc: Global,
    tickets: &TicketTable,
    whole: &mut TimeSeat,
) -> Result<Vec<Worker>, AllocError>
    requires { whole.old ≡ fresh tickets.now.table TOTAL 0 }
    ensures workers { IfOk result (λ ws. All (λ w. w.seat ≡ fresh tickets.now.table BUDGET w.seat.seen) ws.items) }
    ensures count { IfOk result (λ ws. vec_len ws ≡ 8) }
    ensures whole { IfOk result (λ _. whole.new ≡ fresh tickets.now.table 0 0) }
{
    let mut workers = Vec::new(alloc);
    for _ in 0..THREADS {
        let seat = tickets.split(whole, BUDGET);
        let log = Vec::new(alloc);
        workers.push(Worker { seat, log })?;
    }
    Ok(workers)
}

fn work_all<R: Threads + Sync>(rt: &R, tickets: &TicketTable, workers: &mut [Worker])
    requires { All (λ w. w.seat ≡ fresh tickets.now.table BUDGET w.seat.seen) workers.old }
    ensures own { All (λ w. w.seat.table ≡ tickets.now.table) workers.new }
    ensures share { All (λ w. share_of w.seat ≡ BUDGET) workers.new }
{
    for_each_mut(rt, workers, THREADS, &|_, worker| worker.work(tickets));
}

fn joined(
    tickets: &TicketTable,
    mut whole: TimeSeat,
    workers: Vec<Worker>,
    log: &mut Vec<Block>,
) -> Result<TimeSeat, AllocError>
    requires whole { whole ≡ fresh tickets.now.table 0 0 }
    requires own { All (λ w. w.seat.table ≡ tickets.now.table) workers.items }
    requires share { All (λ w. share_of w.seat ≡ BUDGET) workers.items }
    ensures own { IfOk result (λ seat. seat.table ≡ tickets.now.table) }
    ensures share { IfOk result (λ seat. share_of seat ≡ BUDGET * vec_len workers) }
{
    for worker in workers {
        whole = tickets.join(whole, worker.seat);
        log.extend_from_slice(worker.log.as_slice())?;
    }
    Ok(whole)
}

#[test]
fn blocks_of_eight_threads_are_disjoint_and_cover(rt: HostRuntime) -> Result<(), AllocError> {
    let alloc = rt.alloc();
    let (tickets, mut whole) = TicketTable::new(alloc, TOTAL)?;
    let mut workers = workers(alloc, &tickets, &mut whole)?;
    work_all(&rt, &tickets, workers.as_mut_slice());
    let mut blocks = Vec::new(alloc);
    let whole = joined(&tickets, whole, workers, &mut blocks)?;
    let last = tickets.finish(whole);
    assert_eq!(rt; blocks.len(), 80_000);
    blocks.sort_by_key(|block| block.first)?;
    let mut end = 0;
    for block in &blocks {
        assert_eq!(rt; block.first, end);
        end = end.saturating_add(block.count);
    }
    assert_eq!(rt; end, last);
    Ok(())
}
