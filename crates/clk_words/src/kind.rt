//! The kinds of seats.
/// What a seat is for.
#[derive(Clone, Copy, PartialEq, Eq, Debug)]
pub enum SeatKind {
    /// The seat of a CPU's own thread, which alone stamps its pair.
    Owner(u32),
    /// A seat of another thread on that CPU.
    Reader(u32),
    /// The watchdog's seat.
    Watch,
}
