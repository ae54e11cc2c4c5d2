//! The remote read.
ghost use Rattle.std.specs.Prelude.{◌≡◌, ◌≢◌, ◌<◌, ◌≤◌};
ghost use Rattle.clk_record.specs.LowerWord.{lower_word};
ghost use Rattle.clk_words.specs.Knowing.{HasFoundPerCpu};
ghost use Rattle.clk_local.specs.Context.{site_of, known_of, IsUsable, Keeps, Spends};
ghost use Rattle.clk_remote.specs.Coupling.{coupling};
ghost use Rattle.clk_remote.specs.Shows.{ShowsCoupling, ShowsRemote};

use crate::event::RemoteEvent;
use clk_latch::Epochs;
use clk_local::{Ctx, Reading, local};
use clk_num::above;
use clk_words::{Step, Why};

/// A remote read of the clock of `cpu`, another CPU of the words than the seat's: a local read with its look at the
/// mode, and, unless that found the clock stable, a coupling of the own clock word with that of `cpu`. It draws one
/// ticket, takes no memory, and waits only where the latch does. After `sched_clock_remote` of Linux 6.1, which loads
/// the own word before `cpu`'s too.
pub fn remote<E: Epochs>(ctx: &mut Ctx<'_, E>, cpu: u32) -> RemoteEvent
    requires usable { IsUsable E.fits E.epoch ctx.old }
    requires cpu { cpu < ctx.old.words.now.start.cpus }
    requires other { cpu ≢ ctx.old.counter.cpu }
    requires ticket { 1 ≤ ctx.old.time.left }
    ensures keeps { Keeps E.fits E.epoch ctx.old ctx.new }
    ensures spends { Spends 1 ctx.old.time ctx.new.time }
    ensures shows { ShowsRemote (site_of ctx.old) cpu (known_of E.epoch ctx.old) result (known_of E.epoch ctx.new) }
{
    match local(ctx) {
        Reading::Stable { raw, value } => RemoteEvent::Stable { raw, value },
        Reading::PerCpu { raw, step } => {
            let coupled = couple(ctx, cpu);
            RemoteEvent::Coupled {
                raw,
                local: step,
                own: coupled.own,
                other: coupled.other,
                step: coupled.step,
            }
        }
    }
}

// Both loaded words, and the step on the lower one.
#[derive(Clone, Copy)]
struct Coupled {
    own: i64,
    other: i64,
    step: Step,
}

// Loads the own word and then that of `asked`, and raises the lower one to the other.
fn couple<E: Epochs>(ctx: &mut Ctx<'_, E>, asked: u32) -> Coupled
    requires usable { IsUsable E.fits E.epoch ctx.old }
    requires found { HasFoundPerCpu ctx.old.seat.view }
    requires asked { asked < ctx.old.words.now.start.cpus }
    ensures keeps { Keeps E.fits E.epoch ctx.old ctx.new }
    ensures time { ctx.new.time ≡ ctx.old.time }
    ensures shows { ShowsCoupling (site_of ctx.old) asked (known_of E.epoch ctx.old) result.own result.other result.step (known_of E.epoch ctx.new) }
{
    let cpu = ctx.seat.cpu();
    let own = ctx.words.load_clock(&mut ctx.seat, cpu);
    let other = ctx.words.load_clock(&mut ctx.seat, asked);
    let (word, why) = lower_of(cpu, asked, own, other);
    let step = ctx.words.raise(&mut ctx.seat, ctx.call, word, why);
    Coupled { own, other, step }
}

// The word to raise, and why.
fn lower_of(cpu: u32, asked: u32, own: i64, other: i64) -> (u32, Why)
    ensures word { result.0 ≡ lower_word cpu asked own other }
    ensures why { result.1 ≡ coupling cpu asked own other }
{
    if above(other, own) < 0 {
        let why = Why::Couple {
            from: cpu,
            value: own,
        };
        (asked, why)
    } else {
        let why = Why::Couple {
            from: asked,
            value: other,
        };
        (cpu, why)
    }
}
