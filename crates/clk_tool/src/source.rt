//! What gives bytes.
ghost use Rattle.std.specs.Prelude.{ℕ, List, Option};
ghost use Rattle.std.specs.Io.{ReadsAtMost};
ghost use Rattle.std.specs.Io.KnownBytes.{ReadConsumes};
ghost use Rattle.clk_base.specs.Causes.{HasCause};

use clk_trace::Failed;

/// What gives bytes.
pub trait Source {
    // The bytes left, where it tells them.
    ghost rest: { Self → Option (List ℕ) };

    // How many calls failed. The count never falls.
    ghost faults: { Self → ℕ };

    /// Puts the next bytes at the front of `buf` and answers how many. 0 means the end, where `buf` has room. A failed
    /// call gives none, and comes only where the count of faults rose. A source that tells its bytes before a call
    /// tells them after it too.
    fn read(&mut self, buf: &mut [u8]) -> Result<usize, Failed>
        ensures bound { ReadsAtMost result buf.new }
        ensures bytes { ReadConsumes (rest self.old) (rest self.new) result buf.new }
        ensures cause { HasCause (faults self.old) (faults self.new) result };
}
