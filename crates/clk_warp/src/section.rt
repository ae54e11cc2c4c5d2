//! What one section under the warp lock is.
use clk_record::WarpReading;
use clk_ticket::TimeSeat;

// No value of it is made: contracts list the sections of a run. A reading, the source with the run's time seat and what
// the target adds to its counter, the target, or nothing.
pub enum Section {
    Read(WarpReading),
    SourceArrives(TimeSeat, i64),
    TargetArrives,
    Pass,
}
