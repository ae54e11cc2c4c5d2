//! Numbers of the scheduler clock, and lists with room.
//!
//! - [`Rate`] is how cycles become nanoseconds. [`mult_shift`] and [`source_rate`] choose one as Linux 6.1 does in
//!   `kernel/time/clocksource.c`; [`cyc_to_ns`] converts by it, with the product in 128 bits, and [`max_nsecs`] is the
//!   time after which a conversion or the counter itself wraps.
//! - [`masked_delta`] is how far a counter of [`mask_of`] so many bits went. A difference in the upper half counts as
//!   0.
//! - A clock value is a signed 64-bit word that wraps, as in Linux. [`above`] tells by the sign of a difference which
//!   of two is later, and [`raise`] is a register that only rises. [`bits_of`] and [`value_of_bits`] keep a value in a
//!   word in two's complement. How far a value is above an opening is its height; [`word_of`] and [`value_of`] keep
//!   heights in words that compare as they do, by a bias of 2^62.
//! - [`clamp_local`] is the step of a per-CPU clock word, after `sched_clock_local` of Linux 6.1's
//!   `kernel/sched/clock.c`: the word never falls, and it never runs past the end of the tick, which is
//!   [`target_local`].
//! - [`List`] is a `Vec` whose room is taken once, so that what runs later takes no memory.
//!
//! Each call is its formula over unbounded numbers, which stands in `specs/`. The functions [`conversions_add`],
//! [`conversions_are_true`], [`differences_are_true`], [`words_are_values`], [`values_wrap`], [`raises_never_fall`] and
//! [`shift_is_greatest`] do nothing: they carry the laws of the formulas.
//!
//! Nothing here says that a rate is exact: a conversion is rounded down, and its mult to the nearest. Nor does a call
//! refuse what breaks its conditions: a caller proves them.
#![tactic(auto)]

mod biased;
mod clamp;
mod conversion;
mod laws;
mod list;
mod masked;
mod rate;
#[cfg(test)]
mod tests;
mod wrapping;

pub use biased::{value_of, word_of};
pub use clamp::{clamp_local, target_local};
pub use conversion::{cyc_to_ns, max_nsecs};
pub use laws::{
    conversions_add, conversions_are_true, differences_are_true, raises_never_fall,
    shift_is_greatest, values_wrap, words_are_values,
};
pub use list::List;
pub use masked::{mask_of, masked_delta};
pub use rate::{Rate, mult_shift, source_rate};
pub use wrapping::{above, bits_of, raise, value_of_bits};
