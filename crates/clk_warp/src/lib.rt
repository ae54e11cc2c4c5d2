//! The warp test: two CPUs take turns at reading their counters under one lock, and each fall is counted.
//!
//! After `check_tsc_warp` of Linux 6.1's `arch/x86/kernel/tsc_sync.c`. A run is a list of readings in lock order. Each
//! side, the source CPU and the target CPU, has a start reading and then turns; every eighth turn it looks whether its
//! time or its turns are over. A turn below the turn before it, of whichever side, is a fall.
//!
//! - `clk_record` has a finished run, [`WarpRun`], and says over the whole list of its readings which of them are
//!   falls, where a side ends and what the verdict is: `Falls`, `Warps` and `Verdicts` of its `specs/`. The program
//!   keeps counters turn by turn, [`WarpCounts`], and each [`WarpCounts::add`] is proved to keep them those of the
//!   list. [`falls_are_counted`] carries what the definitions mean.
//! - [`WarpState`] is what stands under the lock: the readings, their counts, and the seat that draws their tickets.
//!   One section under the lock is one reading, the arrival of a side, or nothing: `specs/Run.antt` says what each
//!   makes of the state.
//! - [`TurnLock`] is a ticket lock of two words and one slot. What a side finds under it is the first state, changed by
//!   as many sections as its lock ticket, and all sections of its side are its own: `specs/Turns.antt`.
//! - [`warp_worker`] runs one side, and [`run_pair`] both, each on a thread of its own.
//! - [`verdict`] says what comes after a run: it passed, or the target's counter is adjusted and both run again, or the
//!   counters cannot be trusted.
//!
//! It does not say that a side which waits for the lock goes on, nor in which order the two sides enter.
#![tactic(auto)]

mod counts;
mod judge;
mod laws;
mod lock;
mod pair;
mod patience;
mod progress;
mod seat;
mod section;
mod state;
mod view;
mod worker;

pub use clk_record::{Side, Verdict, WarpReading, WarpRun};
pub use counts::WarpCounts;
pub use judge::verdict;
pub use laws::falls_are_counted;
pub use lock::TurnLock;
pub use pair::run_pair;
pub use seat::TurnSeat;
pub use state::WarpState;
pub use worker::{SideEnd, warp_worker};
