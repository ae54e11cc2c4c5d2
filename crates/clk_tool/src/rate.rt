//! The command `rate`: the lines of the scheduler clock's rate.
ghost use Rattle.std.specs.Prelude.{◌≡◌, ◌⊎◌, ◌≤◌, OnOk, OnErr};
ghost use Rattle.clk_base.specs.Causes.{Rose, Grew, GrewByPrefix, HasCause};
ghost use Rattle.clk_tool.specs.Rate.{rate_text};

use crate::status::Status;
use clk_num::{mask_of, max_nsecs, mult_shift};
use clk_trace::Part::{Name, Unsigned};
use clk_trace::{Out, Sink, WriteFault};

const NS_PER_SECOND: u32 = 1_000_000_000;

/// The scheduler clock's products with the cycles of an hour are to fit 64 bits, as `sched_clock_register` of Linux 6.1
/// wants it.
const HOUR: u32 = 3_600;

/// Writes the rate of the scheduler clock for a counter of `hz` Hz, at least 1, and `bits` bits, 1 to 64: three lines
/// with the mult and the shift that turn cycles into ns, and the wrap time in ns, which is half of the longest time for
/// which the counter does not turn over and its product with the mult fits 64 bits.
///
/// The answer is `Done`, or `WriteFault` where the sink failed; then it took a beginning of the lines. It takes no
/// memory, waits on nothing, and returns.
pub fn rate_command<K: Sink>(hz: u32, bits: u32, sink: &mut K) -> Status
    requires hz { 1 ≤ hz }
    requires low { 1 ≤ bits }
    requires high { bits ≤ 64 }
    ensures done { result ≡ Status.Done →
        Grew (K.written sink.old) (K.written sink.new) (rate_text hz bits) }
    ensures cut { result ≡ Status.WriteFault →
        GrewByPrefix (K.written sink.old) (K.written sink.new) (rate_text hz bits) }
    ensures write_fault { result ≡ Status.WriteFault → Rose (K.faults sink.old) (K.faults sink.new) }
    ensures complete { ¬ Rose (K.faults sink.old) (K.faults sink.new) → result ≡ Status.Done }
    ensures answers { (result ≡ Status.Done) ⊎ (result ≡ Status.WriteFault) }
    ensures later { K.faults sink.old ≤ K.faults sink.new }
{
    match write_rate(sink, hz, bits) {
        Ok(()) => Status::Done,
        Err(WriteFault) => Status::WriteFault,
    }
}

/// Writes the three lines. The error is a write that failed; then the sink took a beginning of them.
fn write_rate<K: Sink>(sink: &mut K, hz: u32, bits: u32) -> Result<(), WriteFault>
    requires hz { 1 ≤ hz }
    requires low { 1 ≤ bits }
    requires high { bits ≤ 64 }
    ensures ok { OnOk result (Grew (K.written sink.old) (K.written sink.new) (rate_text hz bits)) }
    ensures err { OnErr result (GrewByPrefix (K.written sink.old) (K.written sink.new) (rate_text hz bits)) }
    ensures cause { HasCause (K.faults sink.old) (K.faults sink.new) result }
{
    let rate = mult_shift(hz, NS_PER_SECOND, HOUR);
    let wrap = max_nsecs(rate, mask_of(bits));
    let mut out = Out::new();
    out.line(sink, &Name("mult"), &[Unsigned(u64::from(rate.mult))]);
    out.line(sink, &Name("shift"), &[Unsigned(u64::from(rate.shift))]);
    out.line(sink, &Name("wrap"), &[Unsigned(wrap)]);
    out.finish(sink)
}
