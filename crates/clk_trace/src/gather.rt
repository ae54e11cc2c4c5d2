//! The histories of the clock words, found from the events of all threads and the lifts of the watchdog.
ghost use Rattle.std.specs.Prelude.{◌≡◌, ◌^◌, ◌<◌, [], ◌∷◌, length, All, if◌then◌else◌, map, nat_eq, slice_index_or, IsPermutation, IsSorted};
ghost use Rattle.clk_lawful.specs.Filling.{Gained, Keeps, HasRoomFor, NamesWordsBelow, HasWordsBelow, MayFill, lines_on, lines_left, steps_left, Sorts, AreSorted, FillsHistories};
ghost use Rattle.clk_lawful.specs.Standing.{lifts_by};
ghost use Rattle.clk_lawful.specs.WordHistory.{steps_of_kind, all_steps, placed_lift, lift_steps, history_cmp};

use clk_lawful::{Event, EventKind, HistoryStep, Trace, WatchTrace};
use clk_num::{List, above};
use clk_record::Step;

/// The most threads that are filled in rounds: those of 64 CPUs and of 16 readers.
const MOST_THREADS: usize = 80;

/// How many events of each thread a round keeps, on average: with fewer it costs more to look at all threads, with more
/// there are more swaps.
const EVENTS_A_ROUND: usize = 4;

/// How many swaps `settle` makes: so many for each line, and some more.
const SWAPS_A_LINE: usize = 8;

const MORE_SWAPS: usize = 64;

/// Fills the history of each clock word, which must be empty and have room, with the steps that the events of all
/// threads made on it and the lift by which the watchdog opened it: by how far the word was then above its opening,
/// rising steps before flat ones, then by thread, call and place. A lift stands under the watchdog's thread, which must
/// be none of the others, with the number of its check and place 0; no word is lifted twice. Nothing else is changed.
/// It takes no memory: the lifts and then the events are appended, about in the order of their tickets, so that the
/// lists are nearly in order before they are sorted in place.
pub fn histories(trace: &mut Trace)
    requires { MayFill trace.old }
    ensures { FillsHistories trace.old trace.new }
{
    fill_lifts(&mut trace.histories, &trace.watch);
    fill(
        &mut trace.histories,
        &trace.cpu_of,
        &trace.threads,
        trace.tickets,
    );
    sort(&mut trace.histories, &trace.start_word);
}

/// Appends the steps of all threads to the lists of their words.
fn fill(
    lists: &mut List<List<HistoryStep>>,
    cpu_of: &List<u32>,
    threads: &List<List<Event>>,
    tickets: u64,
)
    requires count { length cpu_of.now.items ≡ length threads.now.items }
    requires few { length threads.now.items < 2 ^ 32 }
    requires words { HasWordsBelow (length lists.old.items) cpu_of.now.items threads.now.items }
    requires room { HasRoomFor lists.old.items (λ w. lines_on w (all_steps 0 cpu_of.now.items threads.now.items)) }
    ensures { Keeps lists.old.items lists.new.items (λ w. lines_on w (all_steps 0 cpu_of.now.items threads.now.items)) (λ w. []) }
{
    fill_threads(lists.items_mut(), cpu_of.items(), threads.items(), tickets);
}

/// In rounds over the tickets, and then what is left. Threads step in about the order of their tickets, so lines come
/// out nearly in order; nothing rests on that.
fn fill_threads(
    lists: &mut [List<HistoryStep>],
    cpu_of: &[u32],
    threads: &[List<Event>],
    tickets: u64,
)
    requires count { length cpu_of.now ≡ length threads.now }
    requires few { length threads.now < 2 ^ 32 }
    requires words { HasWordsBelow (length lists.old) cpu_of.now threads.now }
    requires room { HasRoomFor lists.old (λ w. lines_on w (all_steps 0 cpu_of.now threads.now)) }
    ensures { Keeps lists.old lists.new (λ w. lines_on w (all_steps 0 cpu_of.now threads.now)) (λ w. []) }
{
    let mut next = [0; MOST_THREADS];
    fill_rounds(lists, cpu_of, threads, &mut next, tickets);
    fill_rest(lists, cpu_of, threads, &next);
}

/// Each thread stands at its place `next`. A round keeps some events of each thread, so it costs little to look at all
/// threads in it, and few lines are out of place after it. All rounds are of one width.
fn fill_rounds(
    lists: &mut [List<HistoryStep>],
    cpu_of: &[u32],
    threads: &[List<Event>],
    next: &mut [usize],
    tickets: u64,
)
    requires count { length cpu_of.now ≡ length threads.now }
    requires few { length threads.now < 2 ^ 32 }
    requires words { HasWordsBelow (length lists.old) cpu_of.now threads.now }
    requires room { HasRoomFor lists.old (λ w. lines_on w (steps_left (λ n. slice_index_or next.old n 0) 0 cpu_of.now threads.now)) }
    ensures { Keeps lists.old lists.new (λ w. lines_on w (steps_left (λ n. slice_index_or next.old n 0) 0 cpu_of.now threads.now)) (λ w. lines_on w (steps_left (λ n. slice_index_or next.new n 0) 0 cpu_of.now threads.now)) }
{
    let rounds = event_count(threads) / threads.len().max(1).saturating_mul(EVENTS_A_ROUND);
    let width = (tickets / (rounds as u64).saturating_add(1)).saturating_add(1);
    for round in 0..rounds {
        let until = width.saturating_mul((round as u64).saturating_add(1));
        fill_round(lists, cpu_of, threads, next, until);
    }
}

/// How many events all threads have.
fn event_count(threads: &[List<Event>]) -> usize {
    let mut count: usize = 0;
    for events in threads {
        count = count.saturating_add(events.len());
    }
    count
}

/// Appends the steps of each thread from where it stands up to this ticket.
fn fill_round(
    lists: &mut [List<HistoryStep>],
    cpu_of: &[u32],
    threads: &[List<Event>],
    next: &mut [usize],
    until: u64,
)
    requires count { length cpu_of.now ≡ length threads.now }
    requires few { length threads.now < 2 ^ 32 }
    requires words { HasWordsBelow (length lists.old) cpu_of.now threads.now }
    requires room { HasRoomFor lists.old (λ w. lines_on w (steps_left (λ n. slice_index_or next.old n 0) 0 cpu_of.now threads.now)) }
    ensures { Keeps lists.old lists.new (λ w. lines_on w (steps_left (λ n. slice_index_or next.old n 0) 0 cpu_of.now threads.now)) (λ w. lines_on w (steps_left (λ n. slice_index_or next.new n 0) 0 cpu_of.now threads.now)) }
{
    let count = threads.len().min(next.len());
    for thread in 0..count {
        let events = threads[thread].items();
        let first = next[thread];
        next[thread] = keep_until(lists, thread as u32, cpu_of[thread], events, first, until);
    }
}

/// Appends all that is left.
fn fill_rest(
    lists: &mut [List<HistoryStep>],
    cpu_of: &[u32],
    threads: &[List<Event>],
    next: &[usize],
)
    requires count { length cpu_of.now ≡ length threads.now }
    requires few { length threads.now < 2 ^ 32 }
    requires words { HasWordsBelow (length lists.old) cpu_of.now threads.now }
    requires room { HasRoomFor lists.old (λ w. lines_on w (steps_left (λ n. slice_index_or next.now n 0) 0 cpu_of.now threads.now)) }
    ensures { Keeps lists.old lists.new (λ w. lines_on w (steps_left (λ n. slice_index_or next.now n 0) 0 cpu_of.now threads.now)) (λ w. []) }
{
    for (thread, events) in threads.iter().enumerate() {
        let first = place_of(next, thread);
        keep_rest(lists, thread as u32, cpu_of[thread], events.items(), first);
    }
}

/// Where a thread stands: at its begin, if it has no place.
fn place_of(next: &[usize], thread: usize) -> usize
    ensures { result ≡ slice_index_or next.now thread 0 }
{
    if thread < next.len() { next[thread] } else { 0 }
}

/// Appends the steps of a thread's events from `first` on with tickets below `until`, and says where it stands then.
fn keep_until(
    lists: &mut [List<HistoryStep>],
    thread: u32,
    cpu: u32,
    events: &[Event],
    first: usize,
    until: u64,
) -> usize
    requires few { length events.now < 2 ^ 32 }
    requires cpu { cpu < length lists.old }
    requires words { All (λ e. NamesWordsBelow (length lists.old) e.kind) events.now }
    requires room { HasRoomFor lists.old (lines_left thread cpu first events.now) }
    ensures { Keeps lists.old lists.new (lines_left thread cpu first events.now) (lines_left thread cpu result events.now) }
{
    let mut part = first;
    while part < events.len() && ticket_of(&events[part]) < until {
        keep_event(lists, thread, cpu, part as u32, &events[part]);
        part += 1;
    }
    part
}

/// The first ticket of an event. One without a ticket shows 0, and so goes with the event before it.
fn ticket_of(event: &Event) -> u64 {
    match event.kind {
        EventKind::Stable { raw, .. } => raw.ticket,
        EventKind::Local { raw, .. } => raw.ticket,
        EventKind::Stamp { gtod_ticket, .. } => gtod_ticket,
        EventKind::Update(published) => published.ticket,
        EventKind::Pause { ticket, .. } => ticket,
        EventKind::Couple { .. } | EventKind::Nothing => 0,
    }
}

/// Appends the steps of all of a thread's events from `first` on.
fn keep_rest(lists: &mut [List<HistoryStep>], thread: u32, cpu: u32, events: &[Event], first: usize)
    requires few { length events.now < 2 ^ 32 }
    requires cpu { cpu < length lists.old }
    requires words { All (λ e. NamesWordsBelow (length lists.old) e.kind) events.now }
    requires room { HasRoomFor lists.old (lines_left thread cpu first events.now) }
    ensures { Keeps lists.old lists.new (lines_left thread cpu first events.now) (λ w. []) }
{
    let mut part = first;
    while part < events.len() {
        keep_event(lists, thread, cpu, part as u32, &events[part]);
        part += 1;
    }
}

/// Appends the step of an event, if it made one.
fn keep_event(lists: &mut [List<HistoryStep>], thread: u32, cpu: u32, part: u32, event: &Event)
    requires cpu { cpu < length lists.old }
    requires words { NamesWordsBelow (length lists.old) event.now.kind }
    requires room { HasRoomFor lists.old (λ w. lines_on w (steps_of_kind thread cpu event.now.call part event.now.kind)) }
    ensures { Gained lists.old lists.new (λ w. lines_on w (steps_of_kind thread cpu event.now.call part event.now.kind)) }
{
    let call = event.call;
    match event.kind {
        EventKind::Local { old, new, .. } => keep(
            lists,
            cpu,
            HistoryStep {
                thread,
                call,
                part,
                old,
                new,
            },
        ),
        EventKind::Couple { word, old, new, .. } => keep(
            lists,
            word,
            HistoryStep {
                thread,
                call,
                part,
                old,
                new,
            },
        ),
        EventKind::Stable { .. }
        | EventKind::Stamp { .. }
        | EventKind::Nothing
        | EventKind::Update(_)
        | EventKind::Pause { .. } => {}
    }
}

/// Appends the lifts of the watchdog, if there is one, to the lists of their words.
fn fill_lifts(lists: &mut List<List<HistoryStep>>, watch: &Option<WatchTrace>)
    requires words { All (λ s. s.word < length lists.old.items) (lifts_by watch.now) }
    requires room { HasRoomFor lists.old.items (λ w. lines_on w (lift_steps watch.now)) }
    ensures { Gained lists.old.items lists.new.items (λ w. lines_on w (lift_steps watch.now)) }
{
    if let Some(watch) = watch {
        keep_lifts(lists.items_mut(), watch.thread, watch.lifts.items());
    }
}

/// Appends lifts under the thread of this number.
fn keep_lifts(lists: &mut [List<HistoryStep>], thread: u32, lifts: &[Step])
    requires words { All (λ s. s.word < length lists.old) lifts.now }
    requires room { HasRoomFor lists.old (λ w. lines_on w (map (placed_lift thread) lifts.now)) }
    ensures { Gained lists.old lists.new (λ w. lines_on w (map (placed_lift thread) lifts.now)) }
{
    for lift in lifts {
        keep_lift(lists, thread, lift);
    }
}

/// Appends a lift. It has no place among events, and shows 0.
fn keep_lift(lists: &mut [List<HistoryStep>], thread: u32, lift: &Step)
    requires word { lift.now.word < length lists.old }
    requires room { HasRoomFor lists.old (λ w. lines_on w (placed_lift thread lift.now ∷ [])) }
    ensures { Gained lists.old lists.new (λ w. lines_on w (placed_lift thread lift.now ∷ [])) }
{
    let line = HistoryStep {
        thread,
        call: lift.call,
        part: 0,
        old: lift.old,
        new: lift.new,
    };
    keep(lists, lift.word, line);
}

/// Appends a line to the list of a word.
fn keep(lists: &mut [List<HistoryStep>], word: u32, line: HistoryStep)
    requires word { word < length lists.old }
    requires room { HasRoomFor lists.old (λ w. if nat_eq word w then line ∷ [] else []) }
    ensures { Gained lists.old lists.new (λ w. if nat_eq word w then line ∷ [] else []) }
{
    lists[word as usize].push(line);
}

/// Brings the lines of each word into order, above this opening.
fn sort(lists: &mut List<List<HistoryStep>>, opening: &i64)
    ensures { AreSorted opening.now lists.old.items lists.new.items }
{
    sort_lists(lists.items_mut(), opening);
}

fn sort_lists(lists: &mut [List<HistoryStep>], opening: &i64)
    ensures { AreSorted opening.now lists.old lists.new }
{
    for lines in lists.iter_mut() {
        sort_lines(lines, opening);
    }
}

fn sort_lines(lines: &mut List<HistoryStep>, opening: &i64)
    ensures { Sorts opening.now lines.old lines.new }
{
    sort_slice(lines.items_mut(), opening);
}

fn sort_slice(lines: &mut [HistoryStep], opening: &i64)
    ensures all { IsPermutation lines.old lines.new }
    ensures sorted { IsSorted (history_cmp opening.now) lines.new }
{
    settle(lines, *opening);
    lines.sort_unstable_by_key(|s| {
        (
            above(s.new, *opening),
            s.old == s.new,
            s.thread,
            s.call,
            s.part,
            s.old,
        )
    });
}

/// Brings lines that are nearly in order into order, by swaps of neighbours: the sort is then done in one pass. With no
/// swap left it ends, and the sort does the rest.
fn settle(lines: &mut [HistoryStep], opening: i64)
    ensures { IsPermutation lines.old lines.new }
{
    let mut swaps = lines
        .len()
        .saturating_mul(SWAPS_A_LINE)
        .saturating_add(MORE_SWAPS);
    for place in 1..lines.len() {
        swaps = settle_line(lines, place, opening, swaps);
    }
}

/// Swaps the line at `place` with those before it as far as it goes before them, and says how many swaps are left.
fn settle_line(lines: &mut [HistoryStep], place: usize, opening: i64, swaps: usize) -> usize
    requires { place < length lines.old }
    ensures { IsPermutation lines.old lines.new }
{
    let mut at = place;
    let mut left = swaps;
    while 0 < at && 0 < left && goes_before(&lines[at], &lines[at - 1], opening) {
        lines.swap(at - 1, at);
        at -= 1;
        left -= 1;
    }
    left
}

/// Whether a line goes before another, by the order of `sort_slice`. Most lines differ in the word.
fn goes_before(line: &HistoryStep, other: &HistoryStep, opening: i64) -> bool {
    let high = above(line.new, opening);
    let than = above(other.new, opening);
    if high != than {
        return high < than;
    }
    let flat = line.old == line.new;
    let other_flat = other.old == other.new;
    if flat != other_flat {
        return other_flat;
    }
    (line.thread, line.call, line.part, line.old)
        < (other.thread, other.call, other.part, other.old)
}
