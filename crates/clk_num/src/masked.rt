//! Counters of fewer than 64 bits, which start again at 0.
ghost use Rattle.std.specs.Prelude.{◌≡◌, ◌≤◌};
ghost use Rattle.clk_num.specs.Masked.{mask_of, masked_delta};

/// The greatest count of a counter of `bits` bits, 1 to 64.
pub fn mask_of(bits: u32) -> u64
    requires low { 1 ≤ bits }
    requires high { bits ≤ 64 }
    ensures { result ≡ mask_of bits }
{
    u64::MAX >> (64 - bits)
}

/// How far a counter of `bits` bits, 1 to 64, went from `last` to `now`, over the end of its range. A difference in the
/// upper half of the mask counts as 0: there the counter went back, as far as one can tell. After `clocksource_delta`
/// of Linux 6.1 with its test of the last cycle.
pub fn masked_delta(now: u64, last: u64, bits: u32) -> u64
    requires low { 1 ≤ bits }
    requires high { bits ≤ 64 }
    ensures { result ≡ masked_delta now last bits }
{
    let mask = mask_of(bits);
    let delta = now.wrapping_sub(last) & mask;
    let half = mask >> 1;
    if delta > half { 0 } else { delta }
}
