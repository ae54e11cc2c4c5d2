//! Runs with a watchdog through the top call: worked rows, that its thread meets the others, and the most checks.
use crate::answered::{Row, answers, are_answered, joined};
use crate::thread_tests::meet;
use std::alloc::{AllocError, Global};

// A machine file of one CPU, whose reference runs at 1 GHz, up to the margin.
const ONE_CPU: &str =
    "version = 1\ncpus = 1\nstep = 10\nnominal_khz = 1000000\nstable = false\n[reference]\nkhz = 1000000\n";

const FAST: &str = "margin = 6\n[[cpu]]\nkhz = 1100000\n";

const HEAD: &str =
    "trace 1\nepoch 0 0\nboot 1 10 2 22 0 22\nstart percpu 0 12\nword 0 22\nthread 0 0\n";

const TSC: &str = "[[source]]\ntsc = true\nrating = 300\nmargin = 6\n";

// The tables of a watchdog and its sources, and what follows the head of the trace.
const WATCHED: [Row; 4] = [
    (
        &[
            ONE_CPU,
            FAST,
            "[watchdog]\nchecks = 3\npause = 10\nskew = 100\nretries = 0\n",
            TSC,
        ],
        &[
            HEAD,
            "watch 1\ncheck 0 0 3\nread 0 13 130 14 154 15 150 16 160\nsource 0 first\ncurrent 0\ncheck 1 0 17\nread 0 27 270 28 308 29 290 30 300\nsource 0 bad 154 140\ncurrent 1\ncheck 2 0 31\nsource 0 passed\ncurrent 1\nhistory 0 0\nend 41\n",
        ],
    ),
    (
        &[
            ONE_CPU,
            FAST,
            "[watchdog]\nchecks = 1\npause = 1\nskew = 0\nretries = 0\n",
        ],
        &[
            HEAD,
            "watch 1\ncheck 0 0 3\ncurrent 0\nhistory 0 0\nend 4\n",
        ],
    ),
    (
        &[
            ONE_CPU,
            FAST,
            "[watchdog]\nchecks = 0\npause = 1\nskew = 0\nretries = 0\n",
            TSC,
        ],
        &[HEAD, "watch 1\nhistory 0 0\nend 3\n"],
    ),
    (&[ONE_CPU, FAST, TSC], &[HEAD, "history 0 0\nend 3\n"]),
];

#[test]
fn checks_are_those_of_the_worked_runs(rt: HostRuntime) -> Result<(), AllocError> {
    are_answered(&rt, rt.alloc(), &WATCHED)
}

const SLOW: &str = "margin = 0\n[[cpu]]\nkhz = 1000000\n";

// A CPU, a reader and a watchdog with a check.
const THREE: &str =
    "script = [\"local\"]\n[[reader]]\ncpu = 0\nscript = [\"local\"]\n[watchdog]\nchecks = 1\npause = 1\nskew = 0\nretries = 0\n";

#[test]
fn watch_meets(rt: HostRuntime) -> Result<(), AllocError> {
    meet(
        &rt,
        rt.alloc(),
        3,
        &[ONE_CPU, SLOW, THREE],
        &["trace 1\n", "*end 6\n"],
    )
}

// The first ticket of the first check's attempts: those before it are of the boot and the pause.
const FIRST: u64 = 4;

// The most sources, and the most attempts at one.
const SOURCES: u32 = 8;

const ATTEMPTS: u64 = 11;

const MOST: &str = "[watchdog]\nchecks = 4096\npause = 1\nskew = 20\nretries = 10\n";

const SOURCE: &str = "[[source]]\nrating = 300\nmargin = 0\nnominal_khz = 1000000\n";

const EIGHT: [&str; 11] = [
    ONE_CPU, SLOW, MOST, SOURCE, SOURCE, SOURCE, SOURCE, SOURCE, SOURCE, SOURCE, SOURCE,
];

// Delays of 1 ns within each attempt at a source but the last one, in the first check.
fn push_delays(alloc: Global, text: &mut String, source: u32) -> Result<(), AllocError> {
    for attempt in 0..ATTEMPTS - 1 {
        let ticket = FIRST + 4 * (ATTEMPTS * u64::from(source) + attempt) + 1;
        let delay = format!(in alloc; "[[delay]]\nticket = {ticket}\nns = 1\n")?;
        text.push_str(delay.as_str())?;
    }
    Ok(())
}

// The file of the most checks with the most sources and retries. In the first check a delay of 1 ns within each
// attempt but a source's last one makes it too long for the skew, and no such delay stands in any other check.
fn most_checks(alloc: Global) -> Result<String, AllocError> {
    let mut text = joined(alloc, &EIGHT)?;
    for source in 0..SOURCES {
        push_delays(alloc, &mut text, source)?;
    }
    Ok(text)
}

// The boot draws 3 tickets. Each check draws 1, and 4 for each source; the first draws 4 more for each of 10 attempts
// at each of 8 sources. So 3 + 4,096 * 33 + 320 are drawn.
const MOST_ANSWER: [&str; 3] = [
    "trace 1\n",
    "*\ncheck 4095 0 135458\n",
    "*source 7 good 330 330\ncurrent 0\nhistory 0 0\nend 135491\n",
];

#[test]
fn the_most_checks_of_the_most_sources(rt: HostRuntime) -> Result<(), AllocError> {
    let text = most_checks(rt.alloc())?;
    answers(&rt, rt.alloc(), &[text.as_str()], &MOST_ANSWER)
}
