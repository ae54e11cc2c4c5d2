//! Runs of several threads through the top call: that they really meet, and what their order makes of a trace.
use crate::answered::{DONE, Row, answer_to, answers_over, are_answered, is_so};
use crate::gates::{Meeting, TurnGate};
use clk_machine::OpenGate;
use std::alloc::{AllocError, Global};
use std::process::Abort;
use std::sync::Wait;
use std::thread::Threads;

// A machine file of two CPUs at 1 GHz, up to the tables of its CPUs.
const TWO_CPUS: &str =
    "version = 1\ncpus = 2\nstep = 10\ntick = 1000000\nnominal_khz = 1000000\nstable = false\n[reference]\nkhz = 1000000\n";

const BUSY: &str = "[[cpu]]\nrepeat = 1000\nscript = [\"tick\", \"update\", \"local\"]\n";

const ON_CPU_0: &str = "[[reader]]\nrepeat = 1000\nscript = [\"local\"]\ncpu = 0\n";

const ON_CPU_1: &str = "[[reader]]\nrepeat = 1000\nscript = [\"local\"]\ncpu = 1\n";

// Two remote reads, of which the second coupling is a tie, and so a step on the own word that stays where it is; and
// four readers beside two busy CPUs.
const RUNS: [Row; 2] = [
    (
        &[
            TWO_CPUS,
            "[[cpu]]\njumps = [[35, -30]]\nscript = [\"remote 1\", \"remote 1\"]\n[[cpu]]\nscript = []\n",
        ],
        &[
            "trace 1\nepoch 0 0\nboot 1 10 2 20 0 20\nstart percpu 0 10\ncpu 1 0 untested\nword 0 20\nword 1 20\nthread 0 0\n0 local 3 30 0 30 20 10 10 20 30\n0 couple 1 30 20 1 20 30\n1 local 4 10 0 10 20 10 10 30 30\n1 couple 1 30 30 0 30 30\nthread 1 1\nhistory 0 3\n0 0 20 30\n0 1 30 30\n0 1 30 30\nhistory 1 1\n0 0 20 30\nend 5\n",
        ],
    ),
    (
        &[TWO_CPUS, BUSY, BUSY, ON_CPU_0, ON_CPU_1, ON_CPU_0, ON_CPU_1],
        &["trace 1\n", "*\nend 14003\n"],
    ),
];

#[test]
fn runs_of_several_threads(rt: HostRuntime) -> Result<(), AllocError> {
    are_answered(&rt, rt.alloc(), &RUNS)
}

// Four CPUs without words.
const FOUR: &str =
    "[[cpu]]\nscript = []\n[[cpu]]\nscript = []\n[[cpu]]\nscript = []\n[[cpu]]\nscript = []\n";

const SIXTY_FOUR: [&str; 17] = [
    "version = 2\ncpus = 64\nstep = 10\nnominal_khz = 1000000\nstable = false\nreference.khz = 1000000\n",
    FOUR,
    FOUR,
    FOUR,
    FOUR,
    FOUR,
    FOUR,
    FOUR,
    FOUR,
    FOUR,
    FOUR,
    FOUR,
    FOUR,
    FOUR,
    FOUR,
    FOUR,
    FOUR,
];

const SIXTY_FOUR_ANSWER: [&str; 3] = [
    "trace 1\n",
    "*thread 63 63\nhistory 0 0\n",
    "*history 63 0\nend 3\n",
];

#[test]
fn sixty_four_cpus_without_words(rt: HostRuntime) -> Result<(), AllocError> {
    let answer = answer_to(&rt, rt.alloc(), &SIXTY_FOUR, &OpenGate)?;
    is_so(&rt, answer.as_str(), &SIXTY_FOUR_ANSWER);
    assert_eq!(rt; answer.matches("\n").count(), 260);
    Ok(())
}

// Asserts that so many threads of a run meet at their first passes, and that the program answers so.
pub(crate) fn meet<R: Abort + Wait + Threads + Sync>(
    rt: &R,
    alloc: Global,
    threads: usize,
    file: &[&str],
    want: &[&str],
) -> Result<(), AllocError> {
    let gate = Meeting::new(threads);
    answers_over(rt, alloc, file, &gate, want)?;
    assert!(rt; gate.all_met());
    Ok(())
}

#[test]
fn two_cpus_meet(rt: HostRuntime) -> Result<(), AllocError> {
    let scripts = "[[cpu]]\nscript = [\"local\"]\n[[cpu]]\nscript = [\"local\"]\n";
    meet(&rt, rt.alloc(), 2, &[TWO_CPUS, scripts], DONE)
}

// Two CPUs of 200 words each. Had one of them made all of its own first, its last reading would be at ticket 202.
const SIDE_BY_SIDE: [&str; 3] = [
    TWO_CPUS,
    "[[cpu]]\nrepeat = 200\nscript = [\"local\"]\n",
    "[[cpu]]\nrepeat = 200\nscript = [\"local\"]\n",
];

// How often a run is made on a machine that may be busy, for its threads to take turns in one of them.
pub(crate) const TRIES: u32 = 20;

#[test]
fn scripts_run_side_by_side(rt: HostRuntime) -> Result<(), AllocError> {
    let mut met = false;
    for _ in 0..TRIES {
        let trace = answer_to(&rt, rt.alloc(), &SIDE_BY_SIDE, &OpenGate)?;
        assert!(rt; trace.ends_with("\nend 403\n"));
        met = met || !trace.contains("\n199 local 202 ");
    }
    assert!(rt; met, "one script after the other");
    Ok(())
}

// A machine file of one CPU at 1 GHz, up to the table of the CPU.
const ONE_CPU: &str =
    "version = 1\ncpus = 1\nstep = 10\ntick = 1000000\nnominal_khz = 1000000\nstable = false\n[reference]\nkhz = 1000000\n";

// Passes in turns: the list of a gate, the file, the answer, and the readings that the first passes of each thread were
// given.
const TURNS: [(&[(u32, u32)], &[&str], &[&str], [[u64; 3]; 2]); 2] = [
    (
        &[(0, 0), (1, 0), (0, 1), (1, 1)],
        &[
            TWO_CPUS,
            "[[cpu]]\nscript = [\"local\", \"remote 1\", \"local\"]\n",
            "[[cpu]]\nscript = [\"local\", \"remote 0\", \"local\"]\n",
        ],
        &[
            "trace 1\n",
            "*thread 0 0\n0 local 3 30 0 30 20 10 10 20 30\n1 local 5 50 0 50 20 10 10 30 50\n1 couple 1 50 40 1 40 50\n2 local ",
            "*thread 1 1\n0 local 4 40 0 40 20 10 10 20 40\n1 local 6 60 0 60 20 10 10 50 60\n1 couple 0 60 50 0 50 60\n2 local ",
            "*end 9\n",
        ],
        [[0, 30, 50], [0, 40, 60]],
    ),
    (
        &[(0, 0), (1, 0)],
        &[
            ONE_CPU,
            "[[cpu]]\nscript = [\"update\", \"local\"]\n",
            "[[reader]]\ncpu = 0\nscript = [\"local\", \"local\"]\n",
        ],
        &[
            "trace 1\n",
            "*thread 0 0\n0 update 1 3 30 30\n1 local ",
            "*thread 1 0\n0 local 4 40 1 40 20 10 10 20 40\n1 local ",
            "*end 7\n",
        ],
        [[0, 0, 0], [0, 40, 0]],
    ),
];

// Asserts that the program answers so over a gate with this list, and that the passes were given these readings.
fn turns_answer<R: Abort + Wait + Threads + Sync>(
    rt: &R,
    alloc: Global,
    list: &[(u32, u32)],
    file: &[&str],
    want: &[&str],
    given: &[[u64; 3]; 2],
) -> Result<(), AllocError> {
    let gate = TurnGate::new(list);
    answers_over(rt, alloc, file, &gate, want)?;
    assert!(rt; gate.gave(given));
    Ok(())
}

#[test]
fn forced_turns(rt: HostRuntime) -> Result<(), AllocError> {
    for (list, file, want, given) in &TURNS {
        turns_answer(&rt, rt.alloc(), list, file, want, given)?;
    }
    Ok(())
}
