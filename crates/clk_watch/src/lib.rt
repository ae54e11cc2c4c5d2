//! The clocksource watchdog: it reads each clock source between two readings of the reference, and judges it.
//!
//! A [`Watch`] follows `clocksource_watchdog` and `cs_watchdog_read` of Linux 6.1's `kernel/time/clocksource.c`. A
//! bracket reads the watchdog, the source and the watchdog twice more, again where that took too long: [`Attempt`],
//! [`Bracket`]. A source is compared with the watchdog by how far both went since the readings that were kept of them:
//! [`Outcome`]. It is demoted where they differ by more than its margin and the reference's, or where no bracket of it
//! is short enough.
//!
//! It promises that each outcome is exactly what the recorded attempts call for, by `Attempts` and `Fold` of
//! `clk_record`'s `specs/`, and that each attempt shows the counters at the tickets that were drawn for it. What a call
//! does to a watch and its tickets stands in `specs/` here. No call but [`Watch::new`] takes memory, and none waits.
//!
//! A check is the caller's loop, on any CPU: [`Watch::check_source`] for each source in order, up to a record that says
//! [`Outcome::Skip`], after which the caller makes no further call in this check. The fold of the records over their
//! attempts is what is kept of the sources, and so all that the next check goes by: [`Watch::records`] tells that each
//! record is right by that fold.
//!
//! Which brackets are skipped, and which source is current on a tie, are choices of this crate and no statement about
//! Linux. The functions [`healthy_is_never_demoted`] and [`demoted_stays_out`] do nothing: they carry laws of the fold.
#![tactic(auto)]

mod judge;
mod laws;
mod numbers;
mod place;
mod readings;
mod settle;
#[cfg(test)]
mod tests;
mod tries;
mod visit;
mod watch;

pub use clk_record::{Attempt, Bracket, Outcome, Pair, SourceRecord, Watched};
pub use laws::{demoted_stays_out, healthy_is_never_demoted};
pub use watch::Watch;
