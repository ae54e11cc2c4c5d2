//! What a record leaves of the sources.
ghost use Rattle.std.specs.Prelude.{◌≡◌, ◌<◌, map, length, true, Some};
ghost use Rattle.clk_record.specs.Fold.{unmarked, left_of as left_by_outcome, left_by};

use clk_num::List;
use clk_record::{Outcome, Pair, Watched};

/// Keeps of source `s` and the others what an outcome leaves. `now` is the accepted pair, if there is one.
pub(crate) fn settle(sources: &mut List<Watched>, s: u32, outcome: &Outcome, now: Pair)
    requires { s < length sources.old.items }
    ensures items { sources.new.items ≡ left_by outcome.now now s sources.old.items }
    ensures room { sources.new.room ≡ sources.old.room }
{
    settle_each(sources.items_mut(), s as usize, outcome, now);
}

fn settle_each(sources: &mut [Watched], s: usize, outcome: &Outcome, now: Pair)
    requires { s < length sources.old }
    ensures { sources.new ≡ left_by outcome.now now s sources.old }
{
    if let Outcome::Skip = outcome {
        unmark_all(sources);
    } else {
        sources[s] = left_of(outcome, now, sources[s]);
    }
}

/// Drops what was kept of every source.
fn unmark_all(sources: &mut [Watched])
    ensures { sources.new ≡ map unmarked sources.old }
{
    for watched in sources.iter_mut() {
        watched.kept = None;
    }
}

/// What an outcome leaves of its source.
fn left_of(outcome: &Outcome, now: Pair, watched: Watched) -> Watched
    ensures { result ≡ left_by_outcome outcome.now now watched }
{
    match outcome {
        Outcome::Passed => watched,
        Outcome::Slow => demoted(watched),
        Outcome::Skip => Watched {
            kept: None,
            ..watched
        },
        Outcome::First | Outcome::Good { .. } => keeping(now, watched),
        Outcome::Bad { .. } => demoted(keeping(now, watched)),
    }
}

fn keeping(now: Pair, watched: Watched) -> Watched
    ensures { result ≡ record watched { kept = Some now } }
{
    Watched {
        kept: Some(now),
        ..watched
    }
}

fn demoted(watched: Watched) -> Watched
    ensures { result ≡ record watched { unstable = true; rating = 0 } }
{
    Watched {
        unstable: true,
        rating: 0,
        ..watched
    }
}
