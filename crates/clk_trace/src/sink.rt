//! Where a text goes.
ghost use Rattle.std.specs.Prelude.{List, ℕ, Option};
ghost use Rattle.clk_base.specs.Causes.{HasCause, Wrote};

/// A read or a write failed.
#[derive(Clone, Copy, PartialEq, Eq, Debug)]
pub struct Failed;

/// Where a text goes. `written` is what the sink took so far, where it tells it, and `faults` counts its failures; the
/// count never falls.
pub trait Sink {
    ghost written: { Self → Option (List ℕ) };

    ghost faults: { Self → ℕ };

    /// Takes the first bytes of the piece and answers how many, at least one of a piece that is not empty. Where it
    /// fails it takes none, and its count of faults rose.
    fn write(&mut self, piece: &[u8]) -> Result<usize, Failed>
        ensures bytes { Wrote (written self.old) (written self.new) result piece.now }
        ensures cause { HasCause (faults self.old) (faults self.new) result };
}
