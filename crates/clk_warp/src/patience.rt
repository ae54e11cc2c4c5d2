//! How a side of a warp run waits for the other one.
use std::sync::Wait;
use std::thread::{Parker, yield_now};
use std::time::Duration;

// How often a side looks at most whether the other one has drawn, before its first section: some hundred microseconds,
// in which a thread begins, and then a tenth of a second, where the machine is busy. The last looks are after naps.
const LOOKS_TOGETHER: u32 = 1_124;

const LOOKS_BEFORE_A_NAP: u32 = 1_024;

// How long a nap is, in microseconds.
const NAP_US: u64 = 1_000;

// The least and the greatest number of looks before a yield: a microsecond or so, in which the other side's section is
// over, and a few milliseconds, for which the system may let somebody else run.
const LEAST_LOOKS: u32 = 64;

const MOST_LOOKS: u32 = 1 << 17;

// How a side waits. Nothing rests on it.
#[derive(Clone, Copy, Debug)]
pub(crate) struct Patience {
    // How often it looks for the other side's first lock ticket.
    together: u32,
    // How often it looks whether it is served, before it lets another thread run at each further look.
    //
    // Where the other side goes on while this one looks, that one has a processor of its own, and will have it again
    // soon if it loses it, while a yield might give this side's away for long. So it looks for longer the next time.
    // Where it takes a yield, the sides may share a processor, and it looks for less.
    looks: u32,
}

impl Patience {
    // That of a side which enters by itself.
    pub(crate) fn new() -> Patience {
        Patience {
            together: 0,
            looks: LEAST_LOOKS,
        }
    }

    // That of a side which begins together with the other one.
    pub(crate) fn together() -> Patience {
        Patience {
            together: LOOKS_TOGETHER,
            looks: MOST_LOOKS,
        }
    }

    // How often to look for the other side's first lock ticket: once only.
    pub(crate) fn take_together(&mut self) -> u32 {
        let looks = self.together;
        self.together = 0;
        looks
    }

    // Rests after so many looks in a wait.
    #[inline(always)]
    pub(crate) fn rest(&self, looks: u32) {
        if looks >= self.looks {
            yield_now();
        }
    }

    // Learns from a wait of so many looks.
    #[inline(always)]
    pub(crate) fn learn(&mut self, looks: u32) {
        self.looks = if looks >= self.looks {
            LEAST_LOOKS.max(self.looks / 2)
        } else {
            MOST_LOOKS.min(self.looks.saturating_mul(2))
        };
    }
}

// Rests after so many looks for the other side's first lock ticket.
pub(crate) fn rest_together<R: Wait>(rt: &R, looks: u32) {
    if looks < LOOKS_BEFORE_A_NAP {
        yield_now();
    } else {
        Parker::new().park_timeout(rt, Duration::from_micros(NAP_US));
    }
}
