//! How mult and shift are chosen.
ghost use Rattle.std.specs.Prelude.{◌≡◌, ◌*◌, ◌^◌, ◌<◌, ◌≤◌};
ghost use Rattle.clk_num.specs.Rates.{mult_bits, quotient, mult_shift, source_rate, max_seconds};

use crate::masked::mask_of;

const NS_PER_SECOND: u32 = 1_000_000_000;

const TEN_MINUTES: u64 = 600;

/// How cycles are converted: so many cycles are `cycles * mult / 2^shift` ns, or cycles of another counter.
#[derive(Clone, Copy, PartialEq, Eq, Debug)]
pub struct Rate {
    pub mult: u32,
    pub shift: u32,
}

/// The rate that turns cycles of `from` Hz into cycles of `to` Hz: that of the greatest shift from 32 down to 1 whose
/// mult has no more bits than 64 leave it beside the cycles of `maxsec` seconds, nor more than 32. Where no shift does,
/// the shift is 0 and the mult is the low 32 bits of that at shift 1. After `clocks_calc_mult_shift` of Linux 6.1.
pub fn mult_shift(from: u32, to: u32, maxsec: u32) -> Rate
    requires { 0 < from }
    ensures rate { result ≡ mult_shift from to maxsec }
    ensures shift { result.shift ≤ 32 }
    ensures mult { 0 < to → to < 2 ^ 31 → maxsec * from < 2 ^ 63 → 0 < result.mult }
{
    let bits = bits_of_mult(from, maxsec);
    for shift in (1..33).rev() {
        let mult = mult_at(from, to, shift);
        if mult >> bits == 0 {
            return Rate {
                mult: mult as u32,
                shift,
            };
        }
    }
    Rate {
        mult: (mult_at(from, to, 1) % (1 << 32)) as u32,
        shift: 0,
    }
}

/// The rate of a clock source of `hz` Hz, whose counter has `bits` bits, 1 to 64, into ns. The seconds whose cycles are
/// to fit are those until the counter turns over, at least one, and at most ten minutes' where it is wider than 32
/// bits. After `__clocksource_update_freq_scale` of Linux 6.1.
pub fn source_rate(hz: u32, bits: u32) -> Rate
    requires hz { 0 < hz }
    requires low { 1 ≤ bits }
    requires high { bits ≤ 64 }
    ensures rate { result ≡ source_rate hz bits }
    ensures shift { result.shift ≤ 32 }
    ensures mult { 0 < result.mult }
{
    mult_shift(hz, NS_PER_SECOND, seconds_of(hz, bits))
}

/// How many seconds of a source's cycles are to fit.
fn seconds_of(hz: u32, bits: u32) -> u32
    requires hz { 0 < hz }
    requires low { 1 ≤ bits }
    requires high { bits ≤ 64 }
    ensures { result ≡ max_seconds hz bits }
{
    let mask = mask_of(bits);
    let seconds = mask / u64::from(hz);
    if seconds == 0 {
        1
    } else if seconds > TEN_MINUTES && mask > u64::from(u32::MAX) {
        TEN_MINUTES as u32
    } else {
        seconds as u32
    }
}

/// How many bits the mult may have.
fn bits_of_mult(from: u32, maxsec: u32) -> u32
    ensures bits { result ≡ mult_bits from maxsec }
    ensures few { result ≤ 32 }
{
    let high = (u64::from(maxsec) * u64::from(from)) >> 32;
    (high as u32).leading_zeros()
}

/// The mult at a shift, rounded to the nearest.
fn mult_at(from: u32, to: u32, shift: u32) -> u64
    requires from { 0 < from }
    requires shift { shift ≤ 32 }
    ensures { result ≡ quotient from to shift }
{
    ((u64::from(to) << shift) + u64::from(from) / 2) / u64::from(from)
}
