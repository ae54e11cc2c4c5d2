//! One thread of a run.
ghost use Rattle.std.specs.Prelude.{◌≡◌, ◌+◌, ◌-◌, ◌<◌, ◌≤◌, length, Some};
ghost use Rattle.clk_worker.specs.Making.{script_of, Begins, BelongsTo, WentOn, MakesWord, MakesWords};

use crate::calls::make_at;
use crate::own::{Own, Post, context, own_of};
use crate::shared::Shared;
use clk_lawful::{Event, EventKind};
use clk_machine::Gate;
use clk_num::List;
use std::marker::Model;

/// One thread of a run: its seats, the place in its script, and its events so far.
///
/// Contracts see a `Hand` of it, and `IsGoing` ties how it is to how it was made (`specs/Making.antt`).
#[derive(Drop)]
pub struct Worker {
    post: Post,
    // The number of its next word.
    next: u32,
    // The seats, which a run of words takes out and puts back.
    own: Option<Own>,
    events: List<Event>,
    // The reading of the last event that shows one, in ns, and 0 before there is one.
    last: i64,
}

impl Model for Worker {
    ghost use Rattle.std.specs.Prelude.{IsTrue, is_some};
    ghost use Rattle.clk_worker.specs.Making.{Hand};

    ghost Value = { Hand };

    ghost view = { λ w. record { post = w.post; next = w.next; own = w.own; events = w.events } };

    ghost invariant = { λ w. IsTrue (is_some w.own) };
}

impl Worker {
    /// The worker of a thread at this post on these seats, which keeps its events in this list, and has made no word.
    /// It goes on with what the seats belong to, if they are the owner's of its CPU where the thread is the CPU's own,
    /// and a reader's there otherwise, and have the tickets and the updates of the thread's script, and the list is
    /// empty with room for three events of each word.
    pub fn new(post: Post, own: Own, events: List<Event>) -> Worker
        ensures hand { result ≡ record { post = post; next = 0; own = Some own; events = events } }
        ensures begins { Begins post own events result }
    {
        Worker {
            post,
            next: 0,
            own: Some(own),
            events,
            last: 0,
        }
    }

    /// The thread's number.
    pub fn thread(&self) -> u32
        ensures { result ≡ self.now.post.thread }
    {
        self.post.thread
    }

    /// The events so far.
    pub fn events(&self) -> &List<Event>
        ensures { result.now ≡ self.now.events }
    {
        &self.events
    }

    /// Makes word `m` of the thread's script, counted from 0 after repeats, which is its next one. It first passes the
    /// gate, and then appends the events of the word.
    pub fn word<G: Gate>(&mut self, shared: &Shared, m: u32, gate: &G)
        requires shared { BelongsTo shared.now self.old }
        requires next { m ≡ self.old.next }
        requires within { m < length (script_of shared.now self.old.post) }
        ensures { MakesWord shared.now m self.old self.new }
    {
        self.make_to(shared, m + 1, gate);
    }

    /// Makes all words that are left, each as `word` does.
    pub fn run<G: Gate>(&mut self, shared: &Shared, gate: &G)
        requires shared { BelongsTo shared.now self.old }
        ensures next { self.new.next ≡ length (script_of shared.now self.old.post) }
        ensures went { WentOn shared.now self.old self.new }
    {
        let end = shared.machine.words(self.post.thread);
        self.make_to(shared, end, gate);
    }

    /// Takes the worker apart: its seats, and its events.
    pub fn into_parts(self) -> (Own, List<Event>)
        ensures own { self.own ≡ Some result.0 }
        ensures events { self.events ≡ result.1 }
    {
        (self.own.unwrap(), self.events)
    }

    // Makes the words before number `end`, each once it has passed the gate.
    fn make_to<G: Gate>(&mut self, shared: &Shared, end: u32, gate: &G)
        requires shared { BelongsTo shared.now self.old }
        requires next { self.old.next ≤ end }
        requires within { end ≤ length (script_of shared.now self.old.post) }
        ensures next { self.new.next ≡ end }
        ensures made { MakesWords (end - self.old.next) shared.now self.old self.new }
    {
        let own = self.own.take().unwrap();
        let mut ctx = context(shared, &self.post, self.next, own);
        let mut last = self.last;
        for m in self.next..end {
            gate.pass(self.post.thread, m, last);
            make_at(&mut ctx, &mut self.events, shared, &self.post, m);
            last = last_shown(&self.events, last);
        }
        self.own = Some(own_of(ctx));
        self.next = end;
        self.last = last;
    }
}

// The reading that the last event shows, or `before` where it shows none.
fn last_shown(events: &List<Event>, before: i64) -> i64 {
    match events.items().last() {
        Some(event) => reading_of(&event.kind, before),
        None => before,
    }
}

// The reading that an event shows, or `before` where it shows none.
fn reading_of(kind: &EventKind, before: i64) -> i64 {
    match kind {
        EventKind::Stable { raw: _, value } => *value,
        EventKind::Local { new, .. } | EventKind::Couple { new, .. } => *new,
        EventKind::Stamp { .. }
        | EventKind::Nothing
        | EventKind::Update(_)
        | EventKind::Pause { .. } => before,
    }
}
