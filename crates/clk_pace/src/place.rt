//! Where one thread of a run stands.
ghost use Rattle.std.specs.Prelude.{◌≡◌, ◌+◌, ◌*◌, ◌/◌, ◌<◌, ◌↔◌, IsTrue};

use std::sync::atomic::{AtomicU64, Ordering};

// The whole of a script, in shares.
const WHOLE: u64 = 1 << 20;

// The share by which a thread may be ahead of the slowest one. So scripts of fewer words go word by word.
const LEAD: u64 = WHOLE / 32;

// A thread stops before no more of its words than these, and one.
const STOPS: u32 = 128;

// How often a thread lets others run in a whole run: so often, and once more for so many words.
const YIELDS: u64 = 400;

const WORDS_A_YIELD: u64 = 64;

// Where a thread stands. The atomics are written by that thread alone.
#[derive(Drop)]
pub(crate) struct Place {
    // How many words it makes, and every how many of them it stops.
    words: u32,
    every: u32,
    // How far it is. Who has begun the last word has the greatest share of all.
    share: AtomicU64,
    // How often it still lets others run.
    yields: AtomicU64,
}

impl Place {
    // The place of a thread that makes no word, for which nobody waits.
    pub(crate) fn idle() -> Place {
        Place {
            words: 0,
            every: 1,
            share: AtomicU64::new(u64::MAX),
            yields: AtomicU64::new(0),
        }
    }

    // The place of a thread before the first of so many words.
    pub(crate) fn before(words: u32) -> Place {
        Place {
            words,
            every: words / STOPS + 1,
            share: AtomicU64::new(0),
            yields: AtomicU64::new(YIELDS + u64::from(words) / WORDS_A_YIELD),
        }
    }

    // Whether the thread stops before this word.
    pub(crate) fn stops_at(&self, word: u32) -> bool {
        word.checked_rem(self.every) == Some(0)
    }

    // Whether this is the last word.
    pub(crate) fn is_last(&self, word: u32) -> bool
        ensures { IsTrue result ↔ (word + 1 ≡ self.now.words) }
    {
        self.words.checked_sub(1) == Some(word)
    }

    // Tells the others that the thread is before this word, and answers the share that all must have for it to go on.
    pub(crate) fn reach(&self, word: u32) -> u64 {
        let words = self.words.max(1);
        let share = share_of(word, words);
        self.share.store(share, Ordering::SeqCst);
        share.saturating_sub(LEAD)
    }

    // Tells the others not to wait for this thread any more.
    pub(crate) fn end(&self) {
        self.share.store(u64::MAX, Ordering::SeqCst);
    }

    pub(crate) fn share(&self) -> u64 {
        self.share.load(Ordering::SeqCst)
    }

    // How often the thread lets others run at most before this word: half as often as it still may in all.
    pub(crate) fn yields(&self) -> u64 {
        self.yields.load(Ordering::SeqCst).div_ceil(2)
    }

    // Has let others run so often.
    pub(crate) fn spend(&self, yields: u64) {
        self.yields.fetch_sub(yields, Ordering::SeqCst);
    }
}

// The share of so many words.
fn share_of(word: u32, words: u32) -> u64
    requires { 0 < words }
    ensures { result ≡ word * WHOLE / words }
{
    u64::from(word) * WHOLE / u64::from(words)
}
