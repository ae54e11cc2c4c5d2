//! What a step of a script passes before it is made.

/// What each step of a script passes before it is made, so that a test can hold a thread there or note what it was
/// given. It has no meaning for the run, and it returns.
///
/// `thread` is the thread's number and `op` that of its script word. `last` is the reading of the thread's last event
/// that shows one, in ns, and 0 if there is none.
pub trait Gate {
    fn pass(&self, thread: u32, op: u32, last: i64);
}

/// A gate that lets everything through at once.
#[derive(Clone, Copy, Debug)]
pub struct OpenGate;

impl Gate for OpenGate {
    fn pass(&self, _thread: u32, _op: u32, _last: i64) {}
}
