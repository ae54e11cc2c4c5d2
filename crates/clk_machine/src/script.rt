//! What a thread does, word by word.
ghost use Rattle.std.specs.Prelude.{◌≡◌, ◌*◌, ◌^◌, ◌<◌, ◌≤◌, length, slice_index_or};
ghost use Rattle.std.specs.List.{All, sum_by};
ghost use Rattle.clk_machine.specs.Plan.{script_plan, all_words};
ghost use Rattle.clk_machine.specs.Limits.{IsWithin, longest_pause, is_update};
ghost use Rattle.clk_machine.specs.Ranges.{script_length, script_updates};
ghost use Rattle.clk_machine.specs.Tested.{HasCount, IsRunnable, script_tickets, script_steps};
ghost use Rattle.clk_machine.specs.Tickets.{tickets_of};
ghost use Rattle.clk_machine.specs.Steps.{on_word, steps_for};

use crate::ranges::count;
use clk_num::List;

/// What a thread does: its words, all of them `repeat` times, 0 to 65,536.
#[derive(Drop)]
pub struct Script {
    pub repeat: i64,
    pub words: List<Word>,
}

/// One operation of a script.
#[derive(Clone, Copy, PartialEq, Eq, Debug)]
pub enum Word {
    /// A local reading of the scheduler clock.
    Local,
    /// A reading of the clock of this CPU, from another one.
    Remote(i64),
    /// A tick: the CPU stamps its clock and makes a local reading.
    Tick,
    /// The end of an idle time: a local reading, and then a tick.
    Idle,
    /// The CPU's latch gets a new record.
    Update,
    /// So many tickets go by, 1 to 2^24 in either version.
    Pause(i64),
}

impl Word {
    /// Whether the word is an update.
    fn is_update(&self) -> bool
        ensures { result ≡ is_update self.now }
    {
        matches!(self, Word::Update)
    }

    /// How many tickets the word draws.
    fn tickets(&self) -> u64
        requires { HasCount self.now }
        ensures count { result ≡ tickets_of self.now }
        ensures few { result ≤ longest_pause }
    {
        match self {
            Word::Local | Word::Remote(_) | Word::Update => 1,
            Word::Tick => 3,
            Word::Idle => 4,
            Word::Pause(tickets) => count(tickets),
        }
    }

    /// The most steps that the word makes on clock word `w`, on this CPU.
    fn steps(&self, cpu: u32, w: u32) -> u32
        requires { HasCount self.now }
        ensures count { result ≡ steps_for w cpu self.now }
        ensures few { result ≤ 3 }
    {
        let own = on_word(cpu as u64, w);
        match self {
            Word::Local | Word::Tick => own,
            Word::Remote(other) => own + (own + on_word(count(other), w)),
            Word::Idle => own + own,
            Word::Update | Word::Pause(_) => 0,
        }
    }
}

impl Script {
    /// How many words there are after the repeats, where they are at most 65,536.
    pub(crate) fn count(&self) -> u32
        requires repeat { IsWithin 0 65536 self.now.repeat }
        requires few { length (all_words (script_plan self.now)) ≤ 65536 }
        ensures { result ≡ length (all_words (script_plan self.now)) }
    {
        (self.words.len() as u64 * count(&self.repeat)) as u32
    }

    /// Word `m` after the repeats.
    pub(crate) fn word(&self, m: u32) -> Word
        requires word { m < length (all_words (script_plan self.now)) }
        requires few { length (all_words (script_plan self.now)) ≤ 65536 }
        ensures { result ≡ slice_index_or (all_words (script_plan self.now)) m result }
    {
        // a division of 32 bits is the faster one
        *self.words.get((m % self.words.len() as u32) as usize)
    }

    /// How many tickets the words draw, after the repeats.
    pub(crate) fn tickets(&self) -> u64
        requires { IsRunnable (script_plan self.now) }
        ensures count { result ≡ script_tickets (script_plan self.now) }
        ensures few { result ≤ 2 ^ 40 }
    {
        if self.repeat == 0 {
            return 0;
        }
        count(&self.repeat) * tickets_once(self.words.items())
    }

    /// The most steps that the words make on clock word `w`, on this CPU, after the repeats.
    pub(crate) fn steps(&self, cpu: u32, w: u32) -> u32
        requires { IsRunnable (script_plan self.now) }
        ensures count { result ≡ script_steps w cpu (script_plan self.now) }
        ensures few { result ≤ 3 * 65536 }
    {
        if self.repeat == 0 {
            return 0;
        }
        count(&self.repeat) as u32 * steps_once(self.words.items(), cpu, w)
    }

    /// How many words there are after the repeats.
    pub(crate) fn length(&self) -> u64
        requires repeat { IsWithin 0 65536 self.now.repeat }
        requires words { length self.now.words.items < 2 ^ 32 }
        ensures { result ≡ script_length (script_plan self.now) }
    {
        self.words.len() as u64 * count(&self.repeat)
    }

    /// How many updates there are after the repeats.
    pub(crate) fn updates(&self) -> u64
        requires repeat { IsWithin 0 65536 self.now.repeat }
        requires words { length self.now.words.items < 2 ^ 32 }
        ensures { result ≡ script_updates (script_plan self.now) }
    {
        let updates = self.words.items().iter().filter(|word| word.is_update());
        updates.count() as u64 * count(&self.repeat)
    }
}

/// How many tickets these words draw.
fn tickets_once(words: &[Word]) -> u64
    requires few { length words.now ≤ 65536 }
    requires counts { All HasCount words.now }
    ensures count { result ≡ sum_by tickets_of words.now }
    ensures few { result ≤ length words.now * longest_pause }
{
    let mut tickets = 0;
    for word in words {
        tickets += word.tickets();
    }
    tickets
}

/// The most steps that these words make on clock word `w`, on this CPU.
fn steps_once(words: &[Word], cpu: u32, w: u32) -> u32
    requires few { length words.now ≤ 65536 }
    requires counts { All HasCount words.now }
    ensures count { result ≡ sum_by (steps_for w cpu) words.now }
    ensures few { result ≤ length words.now * 3 }
{
    let mut steps = 0;
    for word in words {
        steps += word.steps(cpu, w);
    }
    steps
}

/// 1 for a step on clock word `w`, and 0 for one on another CPU's.
fn on_word(cpu: u64, w: u32) -> u32
    ensures count { result ≡ on_word cpu w }
    ensures few { result ≤ 1 }
{
    if cpu == w as u64 { 1 } else { 0 }
}
