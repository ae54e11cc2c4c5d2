//! The calls of a thread, one for each kind of script word.
ghost use Rattle.std.specs.Prelude.{◌≢◌, ◌^◌, ◌<◌, ◌≤◌, pos, length};
ghost use Rattle.clk_ticket.specs.Time.{share_of};
ghost use Rattle.clk_machine.specs.Limits.{IsInRange};
ghost use Rattle.clk_machine.specs.Tickets.{tickets_of};
ghost use Rattle.clk_worker.specs.Calling.{seats_in, IsOver, updates_in, Serves, IsOfOwner, MayMake, Makes};
ghost use Rattle.clk_worker.specs.Making.{script_of, SeatsServe, HasEnough, MakesAt};

use crate::keep::{keep, keep_reading, keep_remote, keep_tick};
use crate::own::Post;
use crate::shared::Shared;
use clk_latch::{Epochs, Latch};
use clk_lawful::{Event, EventKind};
use clk_local::{Ctx, IdleEvent, idle, local, tick};
use clk_machine::Word;
use clk_num::List;
use clk_remote::remote;

/// Makes word `m` of the thread's script, in a context of the thread at any call.
#[inline(always)]
pub(crate) fn make_at(
    ctx: &mut Ctx<'_, Latch>,
    events: &mut List<Event>,
    shared: &Shared,
    post: &Post,
    m: u32,
)
    requires within { m < length (script_of shared.now post.now) }
    requires context { IsOver shared.now post.now ctx.old }
    requires serves { SeatsServe shared.now post.now (share_of ctx.old.time) (seats_in ctx.old) }
    requires enough { HasEnough shared.now post.now m (seats_in ctx.old) events.old }
    ensures context { IsOver shared.now post.now ctx.new }
    ensures made { MakesAt shared.now post.now m (seats_in ctx.old) events.old (seats_in ctx.new) events.new }
{
    let word = shared.machine.word(post.thread, m);
    ctx.call = m;
    make(ctx, events, word);
}

// One word of a script.
fn make(ctx: &mut Ctx<'_, Latch>, events: &mut List<Event>, word: Word)
    requires serves { Serves (share_of ctx.old.time) ctx.old }
    requires allowed { MayMake word ctx.old }
    requires range { IsInRange ctx.old.words.now.start.cpus word }
    requires cpus { ctx.old.words.now.start.cpus < 2 ^ 32 }
    requires left { tickets_of word ≤ ctx.old.time.left }
    requires updates { updates_in word ≤ ctx.old.latch_seat.epoch.left }
    requires room { 3 ≤ events.old.room }
    ensures { Makes word ctx.old events.old ctx.new events.new }
{
    match word {
        Word::Local => read(ctx, events),
        Word::Remote(asked) => read_of(ctx, events, asked as u32),
        Word::Tick => make_tick(ctx, events),
        Word::Idle => make_idle(ctx, events),
        Word::Update => update(ctx, events),
        Word::Pause(count) => pause(ctx, events, count as u64),
    }
}

// A reading of the own clock.
fn read(ctx: &mut Ctx<'_, Latch>, events: &mut List<Event>)
    requires serves { Serves (share_of ctx.old.time) ctx.old }
    requires left { 1 ≤ ctx.old.time.left }
    requires room { 1 ≤ events.old.room }
    ensures { Makes Word.Local ctx.old events.old ctx.new events.new }
{
    let call = ctx.call;
    let reading = local(ctx);
    keep_reading(events, call, &reading);
}

// A reading of the clock of `asked`, which may be the own CPU.
fn read_of(ctx: &mut Ctx<'_, Latch>, events: &mut List<Event>, asked: u32)
    requires serves { Serves (share_of ctx.old.time) ctx.old }
    requires asked { asked < ctx.old.words.now.start.cpus }
    requires left { 1 ≤ ctx.old.time.left }
    requires room { 2 ≤ events.old.room }
    ensures { Makes (Word.Remote (pos asked)) ctx.old events.old ctx.new events.new }
{
    if asked == ctx.counter.cpu {
        read(ctx, events)
    } else {
        read_other(ctx, events, asked)
    }
}

// A reading of the clock of another CPU.
fn read_other(ctx: &mut Ctx<'_, Latch>, events: &mut List<Event>, asked: u32)
    requires serves { Serves (share_of ctx.old.time) ctx.old }
    requires asked { asked < ctx.old.words.now.start.cpus }
    requires other { asked ≢ ctx.old.counter.cpu }
    requires left { 1 ≤ ctx.old.time.left }
    requires room { 2 ≤ events.old.room }
    ensures { Makes (Word.Remote (pos asked)) ctx.old events.old ctx.new events.new }
{
    let call = ctx.call;
    let event = remote(ctx, asked);
    keep_remote(events, call, asked, &event);
}

// A tick of the own CPU.
fn make_tick(ctx: &mut Ctx<'_, Latch>, events: &mut List<Event>)
    requires serves { Serves (share_of ctx.old.time) ctx.old }
    requires owner { IsOfOwner ctx.old }
    requires left { 3 ≤ ctx.old.time.left }
    requires room { 2 ≤ events.old.room }
    ensures { Makes Word.Tick ctx.old events.old ctx.new events.new }
{
    let call = ctx.call;
    let event = tick(ctx);
    keep_tick(events, call, &event);
}

// An idle event: a reading, and a tick.
fn make_idle(ctx: &mut Ctx<'_, Latch>, events: &mut List<Event>)
    requires serves { Serves (share_of ctx.old.time) ctx.old }
    requires owner { IsOfOwner ctx.old }
    requires left { 4 ≤ ctx.old.time.left }
    requires room { 3 ≤ events.old.room }
    ensures { Makes Word.Idle ctx.old events.old ctx.new events.new }
{
    let call = ctx.call;
    let IdleEvent { read, tick } = idle(ctx);
    keep_reading(events, call, &read);
    keep_tick(events, call, &tick);
}

// An update of the own CPU's latch.
fn update(ctx: &mut Ctx<'_, Latch>, events: &mut List<Event>)
    requires serves { Serves (share_of ctx.old.time) ctx.old }
    requires owner { IsOfOwner ctx.old }
    requires left { 1 ≤ ctx.old.time.left }
    requires updates { 1 ≤ ctx.old.latch_seat.epoch.left }
    requires room { 1 ≤ events.old.room }
    ensures { Makes Word.Update ctx.old events.old ctx.new events.new }
{
    let published = ctx.epochs.update(&mut ctx.latch_seat, ctx.tickets, &mut ctx.time, ctx.counter);
    keep(events, ctx.call, EventKind::Update(published));
}

// A pause of so many tickets.
fn pause(ctx: &mut Ctx<'_, Latch>, events: &mut List<Event>, count: u64)
    requires serves { Serves (share_of ctx.old.time) ctx.old }
    requires left { (1 ≤ count) × (count ≤ ctx.old.time.left) }
    requires room { 1 ≤ events.old.room }
    ensures { Makes (Word.Pause (pos count)) ctx.old events.old ctx.new events.new }
{
    let ticket = ctx.tickets.draw(&mut ctx.time, count);
    keep(events, ctx.call, EventKind::Pause { ticket, count });
}
