//! For the tests: gates at which threads wait for each other, and that note what passes.
use clk_machine::Gate;
use std::hint::spin_loop;
use std::sync::atomic::{AtomicU64, Ordering};

// How often a thread looks for another before it gives up.
const LOOKS: u64 = 100_000_000;

// A gate at which each of some threads raises its flag and waits for the flags of the others. It counts the passes, and
// notes what the first nine passes of each of two threads were given.
#[derive(Drop)]
pub(crate) struct Meeting {
    threads: usize,
    came: [AtomicU64; 3],
    passes: AtomicU64,
    last: [[AtomicU64; 9]; 2],
    missed: AtomicU64,
}

impl Meeting {
    // A gate of so many threads, at most 3. Where there are none, no pass waits.
    pub(crate) fn new(threads: usize) -> Meeting {
        Meeting {
            threads,
            came: [0u64; 3].map(|flag| AtomicU64::new(flag)),
            passes: AtomicU64::new(0),
            last: [[0u64; 9]; 2].map(|notes| notes.map(|last| AtomicU64::new(last))),
            missed: AtomicU64::new(0),
        }
    }

    // How many passes were made.
    pub(crate) fn passes(&self) -> u64 {
        self.passes.load(Ordering::SeqCst)
    }

    // Whether no thread gave up.
    pub(crate) fn all_met(&self) -> bool {
        self.missed.load(Ordering::SeqCst) == 0
    }

    // What the first passes of each thread were given.
    pub(crate) fn notes(&self) -> &[[AtomicU64; 9]; 2] {
        &self.last
    }

    // Whether no more than these passes were made, and thread 0 was given these.
    pub(crate) fn gave_just(&self, wants: &[u64]) -> bool {
        let [first, _] = &self.last;
        self.passes() == wants.len() as u64 && are_notes(first, wants)
    }

    fn note(&self, thread: u32, op: u32, last: i64) {
        self.passes.fetch_add(1, Ordering::SeqCst);
        if let Some(notes) = self.last.get(thread as usize) {
            if let Some(note) = notes.get(op as usize) {
                note.store(last.unsigned_abs(), Ordering::SeqCst);
            }
        }
        if let Some(mine) = self.came.get(thread as usize) {
            mine.store(1, Ordering::SeqCst);
        }
    }

    // Whether each of the threads came.
    fn have_come(&self) -> bool {
        self.came
            .iter()
            .take(self.threads)
            .all(|flag| flag.load(Ordering::SeqCst) == 1)
    }
}

impl Gate for Meeting {
    fn pass(&self, thread: u32, op: u32, last: i64) {
        self.note(thread, op, last);
        for _ in 0..LOOKS {
            if self.have_come() {
                return;
            }
            spin_loop();
        }
        self.missed.store(1, Ordering::SeqCst);
    }
}

// A gate that holds the n-th call of a side until the other side has made n calls.
#[derive(Drop)]
pub(crate) struct Barrier {
    made: [AtomicU64; 2],
    missed: AtomicU64,
}

impl Barrier {
    pub(crate) fn new() -> Barrier {
        Barrier {
            made: [AtomicU64::new(0), AtomicU64::new(0)],
            missed: AtomicU64::new(0),
        }
    }

    // Whether no side gave up.
    pub(crate) fn all_met(&self) -> bool {
        self.missed.load(Ordering::SeqCst) == 0
    }
}

impl Gate for Barrier {
    fn pass(&self, thread: u32, _op: u32, _last: i64) {
        let (mine, other) = if thread == 0 { (0, 1) } else { (1, 0) };
        let before = self.made[mine].fetch_add(1, Ordering::SeqCst);
        for _ in 0..LOOKS {
            if self.made[other].load(Ordering::SeqCst) > before {
                return;
            }
            spin_loop();
        }
        self.missed.store(1, Ordering::SeqCst);
    }
}

// A gate of two threads with a list of passes, each a thread and its call. A pass is finished when its thread makes its
// next one. A pass of the list waits for those before it to be finished, and any other pass for all of them. What each
// of the first three passes of a thread was given is noted.
#[derive(Drop)]
pub(crate) struct TurnGate<'a> {
    list: &'a [(u32, u32)],
    // How many passes each thread has made.
    made: [AtomicU64; 2],
    last: [[AtomicU64; 3]; 2],
    missed: AtomicU64,
}

impl<'a> TurnGate<'a> {
    pub(crate) fn new(list: &'a [(u32, u32)]) -> TurnGate<'a> {
        TurnGate {
            list,
            made: [AtomicU64::new(0), AtomicU64::new(0)],
            last: [[0u64; 3]; 2].map(|notes| notes.map(|last| AtomicU64::new(last))),
            missed: AtomicU64::new(0),
        }
    }

    // Whether no thread gave up, and the first passes of the two were given these.
    pub(crate) fn gave(&self, wants: &[[u64; 3]; 2]) -> bool {
        let [first, second] = &self.last;
        let [of_first, of_second] = wants;
        self.missed.load(Ordering::SeqCst) == 0
            && are_notes(first, of_first)
            && are_notes(second, of_second)
    }

    // Whether the thread has made the pass after this one.
    fn is_finished(&self, pass: (u32, u32)) -> bool {
        let (thread, op) = pass;
        match self.made.get(thread as usize) {
            Some(made) => made.load(Ordering::SeqCst) > op as u64 + 1,
            None => false,
        }
    }

    fn note(&self, thread: u32, op: u32, last: i64) {
        if let Some(notes) = self.last.get(thread as usize) {
            if let Some(note) = notes.get(op as usize) {
                note.store(last.unsigned_abs(), Ordering::SeqCst);
            }
        }
        if let Some(made) = self.made.get(thread as usize) {
            made.fetch_add(1, Ordering::SeqCst);
        }
    }

    // Whether the first passes of the list are finished.
    fn are_finished(&self, first: usize) -> bool {
        self.list
            .iter()
            .take(first)
            .all(|pass| self.is_finished(*pass))
    }
}

impl Gate for TurnGate<'_> {
    fn pass(&self, thread: u32, op: u32, last: i64) {
        self.note(thread, op, last);
        let place = self.list.iter().position(|pass| *pass == (thread, op));
        let before = place.unwrap_or(self.list.len());
        for _ in 0..LOOKS {
            if self.are_finished(before) {
                return;
            }
            spin_loop();
        }
        self.missed.store(1, Ordering::SeqCst);
    }
}

// Whether the first notes are these.
fn are_notes(notes: &[AtomicU64], wants: &[u64]) -> bool {
    for (note, want) in notes.iter().zip(wants) {
        if note.load(Ordering::SeqCst) != *want {
            return false;
        }
    }
    true
}
