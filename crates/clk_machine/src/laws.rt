//! What follows from the limits alone, and that the range tests test them.
ghost use Rattle.clk_machine.specs.Laws.{CountersAreSmall, CountersAdjustedTwiceAreSmall, RecordsAreSmall, ReadingsAreSmall, FirstReadingsAreSmall, RangesAreTested, LimitsAreTested};

/// By the limits alone, no counter of a run with an adjustment within 2^47 cycles of 0 shows more than 83 * 2^41
/// cycles, which is below 2^48, and with the sum of two adjustments, within 2^48 cycles of 0, none shows more than 147
/// * 2^41, which is below 2^49. The times of latch records, made at tickets that do not fall, are 0 to 46 * 2^52 ns
///   above the machine's
/// base, and raw readings by them are 0 to 87 * 2^52 ns above it, less than 2^59. Those of CPU 0 by record 0 are 0 to
/// 6 * 2^52 ns above it.
pub fn readings_are_small()
    ensures counters { CountersAreSmall }
    ensures adjusted_twice { CountersAdjustedTwiceAreSmall }
    ensures records { RecordsAreSmall }
    ensures readings { ReadingsAreSmall }
    ensures first { FirstReadingsAreSmall }
{}

/// The range tests of [`crate::Machine::new`] test exactly the limits: no range test fails where all numbers are in
/// range, and no test at all where also the tickets are few enough. So the tests say only which failure is told.
pub fn limits_are_tested()
    ensures ranges { RangesAreTested }
    ensures limits { LimitsAreTested }
{}
