//! Runs whose clock starts stable through the top call: worked rows, and a realistic machine.
use crate::answered::{Row, answer_to, are_answered, is_one};
use clk_machine::OpenGate;
use std::alloc::AllocError;

// The file of a clock that the watchdog demotes.
pub(crate) const DEMOTED: &str =
    "version = 1\ncpus = 1\nstep = 10\nnominal_khz = 1000000\nstable = true\nreference = { khz = 1000000, margin = 7 }\nwatchdog = { checks = 3, pause = 10, skew = 100, retries = 0 }\n[[cpu]]\nkhz = 1100000\n[[source]]\ntsc = true\nrating = 300\nmargin = 7\n";

// A clock that stays stable, and one that the watchdog demotes: the file, and its trace.
const RUNS: [Row; 2] = [
    (
        &[
            "version = 1\ncpus = 1\nstep = 10\nnominal_khz = 1000000\nstable = true\nreference.khz = 1000000\n[[cpu]]\nscript = [\"local\", \"tick\"]\n",
        ],
        &[
            "trace 1\nepoch 0 0\nboot 1 10 2 20 0 20\nboot 3 30 4 40 0 40\nstart stable 0 10\nword 0 40\nthread 0 0\n0 stable 5 50 0 50 50\n1 none\nhistory 0 0\nend 6\n",
        ],
    ),
    (
        &[DEMOTED],
        &[
            "trace 1\nepoch 0 0\nboot 1 10 2 22 0 22\nboot 3 30 4 44 0 44\nstart stable -2 12\nword 0 42\nthread 0 0\nwatch 1\ncheck 0 0 5\nread 0 15 150 16 176 17 170 18 180\nsource 0 first\ncurrent 0\ncheck 1 0 19\nread 0 29 290 30 330 31 310 32 320\nsource 0 good 154 140\nstable 33 330 34 374 0 374 42\ncurrent 0\ncheck 2 0 35\nread 0 45 450 46 506 47 470 48 480\nsource 0 bad 176 160\ndemote 49 490 50 550 0 550 42 532 16\nlift 0 42 532\ncurrent 1\nhistory 0 1\n1 2 42 532\nend 51\n",
        ],
    ),
];

#[test]
fn stable_runs_are_those_of_the_worked_rows(rt: HostRuntime) -> Result<(), AllocError> {
    are_answered(&rt, rt.alloc(), &RUNS)
}

const OWNER: &str =
    "repeat = 200\nscript = [\"tick\", \"local\", \"remote 1\", \"idle\", \"pause 5\"]\n";

const READER: &str = "repeat = 250\nscript = [\"local\", \"remote 3\"]\n";

// Four CPUs of 2.4 GHz beside an HPET: a bring-up in which CPU 1 is 300 cycles ahead, a watchdog, and two readers.
pub(crate) const REALISTIC: &[&str] = &[
    "version = 1\ncpus = 4\nstep = 10\nnominal_khz = 2400000\nstable = true\nreference = { khz = 14318, bits = 32, rating = 250, margin = 100000 }\nbringup = { adjust = true, timeout_us = 2, turns = 1000 }\nwatchdog = { checks = 8, pause = 1000, skew = 100000, retries = 3 }\nsource = [{ tsc = true, rating = 300, margin = 100000 }]\n",
    "[[cpu]]\n",
    OWNER,
    "[[cpu]]\noffset = 300\n",
    OWNER,
    "[[cpu]]\n",
    OWNER,
    "[[cpu]]\n",
    OWNER,
    "[[reader]]\ncpu = 0\n",
    READER,
    "[[reader]]\ncpu = 2\n",
    READER,
];

// CPU 3 is brought up, or skipped after CPU 1 failed.
const WANTS: [&[&str]; 2] = [
    &[
        "trace 1\n",
        "*\ncpu 3 0 synced\n",
        "*\ncheck 7 3 ",
        "*\nend ",
        "*\n",
    ],
    &[
        "trace 1\n",
        "*\ncpu 3 0 skipped\n",
        "*\ncheck 7 3 ",
        "*\nend ",
        "*\n",
    ],
];

#[test]
fn a_realistic_machine(rt: HostRuntime) -> Result<(), AllocError> {
    let answer = answer_to(&rt, rt.alloc(), REALISTIC, &OpenGate)?;
    is_one(&rt, answer.as_str(), &WANTS);
    Ok(())
}
