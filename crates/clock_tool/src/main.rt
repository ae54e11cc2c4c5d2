//! The program `clock_tool`: the scheduler clock of a machine that a file describes.
//!
//! `clock_tool run` reads a machine file from standard input, brings its CPUs up, runs it, and writes its trace to
//! standard output.
//! `clock_tool rate HZ BITS` reads nothing, and writes the rate of the scheduler clock for a counter of so many Hz and
//! bits. `clock_tool make N` reads nothing, runs a large machine that the number tells, and writes how large the run
//! was. The program ends with the status of the answer, and prints one line on standard error for every status but 0.
//! All that matters is in the library `clk_tool`: here its top call is given the standard streams and the open gate.
#![tactic(auto)]

use clk_machine::OpenGate;
use clk_tool::{Status, StdSink, StdSource, clock_tool};
use std::process::ExitCode;
use std::{env, io};

/// The words of the command line without the program's name, or the answer where they can't be had: words that are not
/// UTF-8 are a faulty command line.
fn words_of(rt: &HostRuntime) -> Result<Vec<String>, Status> {
    let mut words = Vec::new(rt.alloc());
    let args = match env::args(rt) {
        Ok(args) => args,
        Err(error) if error.kind() == io::ErrorKind::OutOfMemory => return Err(Status::Memory),
        Err(_) => return Err(Status::Usage),
    };
    for word in args.skip(1) {
        if words.push(word).is_err() {
            return Err(Status::Memory);
        }
    }
    Ok(words)
}

fn main(rt: HostRuntime) -> ExitCode {
    let status = match words_of(&rt) {
        Ok(words) => {
            let mut source = StdSource::new(rt.reader());
            let mut sink = StdSink::new(io::writer(&rt));
            clock_tool(
                &rt,
                rt.alloc(),
                words.as_slice(),
                &mut source,
                &mut sink,
                &OpenGate,
            )
        }
        Err(status) => status,
    };
    if status != Status::Done {
        // Where standard error takes nothing, the exit status still tells.
        let _ = eprintln!(rt; "{status}");
    }
    ExitCode::from(status.exit_code())
}
