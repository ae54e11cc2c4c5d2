//! A run that can be taken apart: each worker is in its slot or taken.
ghost use Rattle.std.specs.Prelude.{◌≡◌, ◌<◌, ◌≤◌, All, None, Some, IsSome, [], length, set, slice_index_or};
ghost use Rattle.clk_machine.specs.Plan.{threads_of};
ghost use Rattle.clk_lawful.specs.Checks.{listed};
ghost use Rattle.clk_lawful.specs.LawfulTrace.{IsLawful};
ghost use Rattle.clk_lawful.specs.WritableWatch.{MayWriteWatch};
ghost use Rattle.clk_threads.specs.Preparing.{IsPrepared};
ghost use Rattle.clk_threads.specs.Finishing.{ShowsHistory};
ghost use Rattle.clk_threads.specs.Parts.{shared_of, slot_at, with_slot, with_watcher, IsOpenedFrom, CameFrom, WatchCame, AreBack};

use crate::ended::end_run;
use crate::prepared::Prepared;
use crate::run::Finished;
use crate::running::{Running, begin_run};
use clk_num::List;
use clk_watcher::Watcher;
use clk_worker::{Shared, Worker};
use std::marker::Model;
use std::mem;
use std::snapshot::Snapshot;

/// A run that was opened: what its threads use together, the worker of each thread, and the watcher, if the machine has
/// a watchdog. Each of these is in its slot, or it was taken: so a caller can make the words and the checks of a run in
/// any order, from as many threads as it likes, and close it once all are back.
///
/// Contracts see `Parts` of it: what the run was prepared from, and the slots (`specs/Parts.antt`). A worker may come
/// back if it goes on from the one that was made for its thread (`CameFrom`), which a word tells, however the worker
/// began.
#[derive(Drop)]
pub struct RunParts {
    prepared: Snapshot<Prepared>,
    running: Running,
}

impl Model for RunParts {
    ghost use Rattle.clk_threads.specs.Parts.{Parts};

    ghost Value = { Parts };

    ghost use Rattle.clk_threads.specs.PartsKept.{IsOnItsWay};

    ghost view = { λ r. record { prepared = r.prepared.value; slots = r.running.slots.items; watcher = r.running.watcher } };

    ghost invariant = { IsOnItsWay };
}

/// Opens a run that was prepared. All workers are there, on the seats that were prepared for them, and so is the
/// watcher, if there is one; none has made a word or a check. It takes no memory.
pub fn open_run(prepared: Prepared) -> RunParts
    requires prepared { IsPrepared prepared.machine prepared }
    ensures { IsOpenedFrom prepared result }
{
    open_with_room(prepared).0
}

/// Opens it, and answers a list with room for the workers as well.
pub(crate) fn open_with_room(prepared: Prepared) -> (RunParts, List<Worker>)
    requires prepared { IsPrepared prepared.machine prepared }
    ensures opened { IsOpenedFrom prepared result.0 }
    ensures empty { result.1.items ≡ [] }
    ensures room { length (threads_of prepared.machine) ≤ result.1.room }
{
    let from = Snapshot::of(&prepared);
    let (running, workers) = begin_run(prepared);
    let parts = RunParts {
        prepared: from,
        running,
    };
    (parts, workers)
}

impl RunParts {
    /// What all workers of the run use: with it a worker makes its words, and the watcher its checks.
    pub fn shared(&self) -> &Shared
        ensures { result.now ≡ shared_of self.now.prepared }
    {
        &self.running.shared
    }

    /// Takes the worker of a thread, which must be there: the number is that of a CPU or of a reader, and its worker
    /// was not taken or is back. It takes no memory.
    pub fn take(&mut self, thread: u32) -> Worker
        requires there { IsSome (slot_at self.old thread) }
        ensures worker { slot_at self.old thread ≡ Some result }
        ensures thread { result.post.thread ≡ thread }
        ensures came { CameFrom self.old.prepared result }
        ensures parts { self.new ≡ with_slot thread None self.old }
    {
        replace(&mut self.running.slots, thread, None).unwrap()
    }

    /// Takes a worker back into the slot of its thread: one that was taken from this run, and whose words since, if
    /// any, were made with what the run lends. It takes no memory.
    pub fn back(&mut self, worker: Worker)
        requires taken { slot_at self.old worker.post.thread ≡ None }
        requires came { CameFrom self.old.prepared worker }
        ensures { self.new ≡ with_slot worker.post.thread (Some worker) self.old }
    {
        let thread = worker.thread();
        replace(&mut self.running.slots, thread, Some(worker));
    }

    /// Takes the watcher: None where the machine has no watchdog, and while it is taken. It takes no memory.
    pub fn take_watcher(&mut self) -> Option<Watcher>
        ensures watcher { result ≡ self.old.watcher }
        ensures came { All (WatchCame self.old.prepared) (listed result) }
        ensures parts { self.new ≡ with_watcher None self.old }
    {
        self.running.watcher.take()
    }

    /// Takes the watcher back: the one that was taken from this run, and whose checks since, if any, were made with
    /// what the run lends. It takes no memory.
    pub fn back_watcher(&mut self, watcher: Watcher)
        requires taken { self.old.watcher ≡ None }
        requires came { WatchCame self.old.prepared watcher }
        ensures { self.new ≡ with_watcher (Some watcher) self.old }
    {
        self.running.watcher = Some(watcher);
    }
}

/// Closes a run whose workers and watcher are all back and have made all their words and checks: joins their seats,
/// asks the tables for the words' history and for how many tickets were drawn, and finds the histories of the trace.
/// The trace is lawful, and shows the history of the clock words. It takes no memory.
pub fn close_run(parts: RunParts) -> Finished
    requires back { AreBack parts }
    ensures lawful { IsLawful parts.prepared.machine result.trace }
    ensures closed { ShowsHistory result.closed.history result.trace }
    ensures writable { MayWriteWatch (length result.trace.histories.items) result.trace.watch }
{
    end_run(parts.running)
}

// Puts that into the slot of a thread, and answers what was there.
fn replace(slots: &mut List<Option<Worker>>, thread: u32, worker: Option<Worker>) -> Option<Worker>
    requires { thread < length slots.old.items }
    ensures was { result ≡ slice_index_or slots.old.items thread None }
    ensures slots { slots.new.items ≡ set slots.old.items thread worker }
{
    mem::replace(&mut slots.items_mut()[thread as usize], worker)
}
