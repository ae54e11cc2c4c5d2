//! Cycles become nanoseconds, and how many of them may.
ghost use Rattle.std.specs.Prelude.{◌≡◌, ◌^◌, ◌<◌, ◌≤◌};
ghost use Rattle.clk_num.specs.Conversion.{convert, wrap_time};

use crate::rate::Rate;

/// The ns of `cyc` cycles, rounded down. They must fit 64 bits; the product on the way to them need not.
pub fn cyc_to_ns(cyc: u64, rate: Rate) -> u64
    requires fits { convert cyc rate < 2 ^ 64 }
    requires shift { rate.shift ≤ 32 }
    ensures { result ≡ convert cyc rate }
{
    let product = u128::from(cyc) * u128::from(rate.mult);
    (product >> rate.shift) as u64
}

/// The wrap time, in ns: half of the longest time for which neither the counter turns over nor its product with the
/// mult leaves 64 bits. After `clocks_calc_max_nsecs` of Linux 6.1.
pub fn max_nsecs(rate: Rate, mask: u64) -> u64
    requires mult { 0 < rate.mult }
    requires shift { rate.shift ≤ 32 }
    ensures { result ≡ wrap_time rate mask }
{
    let max_cycles = (u64::MAX / u64::from(rate.mult)).min(mask);
    cyc_to_ns(max_cycles, rate) / 2
}
