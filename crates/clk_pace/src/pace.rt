//! How far the threads of a run are, and the gate that keeps them abreast.
use crate::place::Place;
use clk_machine::Gate;
use crossbeam_utils::CachePadded;
use std::array;
use std::hint::spin_loop;
use std::sync::atomic::{AtomicU64, Ordering};
use std::thread::yield_now;

// The threads of a run: up to 64 CPUs, 16 readers, and the watchdog.
const THREADS: usize = 81;

// How often a thread looks for the others at most, before its first word.
const LOOKS_TO_BEGIN: u32 = 20_000;

// At how many places a thread looks before it lets another thread run at each further look.
const PLACES_BEFORE_A_YIELD: usize = 256;

/// How far the threads of a run are.
#[derive(Drop)]
pub struct Pace {
    // How many threads make words, and how many of these have begun, or so many that nobody waits for one.
    wanted: u64,
    came: CachePadded<AtomicU64>,
    // The least share, as who looked last has found it.
    least: CachePadded<AtomicU64>,
    // The places of the threads, of which the first so many are taken.
    taken: usize,
    places: [CachePadded<Place>; THREADS],
}

impl Pace {
    /// That of a run in which no thread makes a word.
    pub fn new() -> Pace {
        Pace {
            wanted: 0,
            came: CachePadded::new(AtomicU64::new(0)),
            least: CachePadded::new(AtomicU64::new(0)),
            taken: 0,
            places: array::from_fn(|_| CachePadded::new(Place::idle())),
        }
    }

    /// The thread of this number, below 81, makes so many words. It is asked for before the run begins, once a thread.
    pub fn expect(&mut self, thread: u32, words: u32) {
        let thread = thread as usize;
        if words == 0 || thread >= THREADS {
            return;
        }
        self.places[thread] = CachePadded::new(Place::before(words));
        self.taken = self.taken.max(thread + 1);
        self.wanted = self.wanted.saturating_add(1);
    }

    // Before a word of a thread: lets the others run while this one is too far ahead.
    fn keep(&self, thread: u32, word: u32) {
        let Some(place) = self.places.get(thread as usize) else {
            return;
        };
        if word == 0 {
            self.begin();
        }
        if place.stops_at(word) {
            self.wait(place, place.reach(word));
        }
        if place.is_last(word) {
            place.end();
        }
    }

    // Waits until all threads have begun. Who waits in vain lets all others off.
    fn begin(&self) {
        self.came.fetch_add(1, Ordering::SeqCst);
        for _ in 0..LOOKS_TO_BEGIN {
            if self.came.load(Ordering::SeqCst) >= self.wanted {
                return;
            }
            yield_now();
        }
        self.came.store(self.wanted, Ordering::SeqCst);
    }

    // Waits until every thread has this share.
    fn wait(&self, place: &Place, share: u64) {
        if self.have(share) {
            return;
        }
        for _ in 0..PLACES_BEFORE_A_YIELD / self.taken.max(1) {
            spin_loop();
            if self.have(share) {
                return;
            }
        }
        let most = place.yields();
        for yields in 0..most {
            if self.have(share) {
                place.spend(yields);
                return;
            }
            yield_now();
        }
        place.spend(most);
    }

    // Whether every thread has this share, as far as the last one who looked found, or else anew.
    fn have(&self, share: u64) -> bool {
        if share <= self.least.load(Ordering::SeqCst) {
            return true;
        }
        let mut least = u64::MAX;
        for place in self.places.iter().take(self.taken) {
            least = least.min(place.share());
        }
        if share <= least {
            self.least.store(least, Ordering::SeqCst);
        }
        share <= least
    }
}

/// A gate behind the pace of a run.
#[derive(Drop)]
pub struct Paced<'a, G: Gate> {
    pub pace: &'a Pace,
    pub gate: &'a G,
}

impl<G: Gate> Gate for Paced<'_, G> {
    fn pass(&self, thread: u32, op: u32, last: i64) {
        self.pace.keep(thread, op);
        self.gate.pass(thread, op, last);
    }
}
