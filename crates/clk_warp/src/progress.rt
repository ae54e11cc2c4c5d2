//! How far one side of a warp run is.
ghost use Rattle.std.specs.Prelude.{◌≡◌, ◌+◌, ◌^◌, ◌<◌, true, false};
ghost use Rattle.clk_record.specs.Falls.{is_over};

/// How many turns apart a side looks whether to end: it is a power of two, so that the look costs little, as in Linux.
const LOOK_EVERY: u32 = 8;

// Whether the start reading is made and what the counter was there, the number of the next turn, and whether the side's
// last turn is made.
#[derive(Clone, Copy, Debug)]
pub struct Progress {
    pub(crate) started: bool,
    pub(crate) start: u64,
    pub(crate) turn: u32,
    pub(crate) ended: bool,
}

impl Progress {
    // A side that has not read its counter yet.
    pub(crate) fn new() -> Progress
        ensures { result ≡ record { started = false; start = 0; turn = 0; ended = false } }
    {
        Progress {
            started: false,
            start: 0,
            turn: 0,
            ended: false,
        }
    }

    // After the start reading.
    pub(crate) fn begun(self, tsc: u64) -> Progress
        ensures { result ≡ record self { started = true; start = tsc } }
    {
        Progress {
            started: true,
            start: tsc,
            ..self
        }
    }

    // After one more turn.
    pub(crate) fn gone_on(self, span: u64, turns: u32, tsc: u64) -> Progress
        requires stop { self.start + span < 2 ^ 64 }
        requires turn { self.turn + 1 < 2 ^ 32 }
        ensures { result ≡ record self { turn = self.turn + 1; ended = is_over (record { span = span; turns = turns }) self.start self.turn tsc } }
    {
        let looks = self.turn % LOOK_EVERY == 0;
        let over = tsc > self.start + span || self.turn > turns;
        Progress {
            turn: self.turn + 1,
            ended: looks && over,
            ..self
        }
    }
}
