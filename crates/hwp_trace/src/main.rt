//! The program `hwp-trace`: its words and standard streams to the trace of a script's run, and its exit status.
#![tactic(auto)]

use hwp_io::{StdSink, StdSource};
use hwp_top::{Done, top_trace};
use std::process::ExitCode;
use std::{env, io};

/// What `--version` prints.
const VERSION: &str = "hwp-trace 0.1.0";

/// What `--help` prints.
const HELP: &str = "\
usage: hwp-trace < SCRIPT > TRACE

Reads a fault script from standard input, runs it as `hwp step` does, and writes
a line for each turn to standard output: its number, the processor, the command,
the kind of its step, the word that it touched with its value, and what it came
to. A schedule word C@KIND of the script names such a line. docs/TRACE.md has the
lines.

  hwp-trace --help   prints this text
  hwp-trace --version

Exit status: 0 done, 8 done and the machine stopped, 2 wrong words, 3 the script
is refused, 4 a read failed, 5 a write failed, 6 out of memory.";

/// The exit status of a program that is out of memory.
const OUT_OF_MEMORY: u8 = 6;

/// The words after the program's name.
fn words(rt: &HostRuntime) -> io::Result<Vec<String>> {
    let mut words = Vec::new(rt.alloc());
    for word in env::args(rt)?.skip(1) {
        words.push(word)?;
    }
    Ok(words)
}

/// Shows the run over the standard streams.
fn serve(rt: &HostRuntime, words: &[String]) -> Done {
    let mut src = StdSource::new(rt.reader());
    let mut out = StdSink::new(io::writer(rt));
    let mut err = StdSink::new(rt.stderr());
    top_trace(rt.alloc(), words, &mut src, &mut out, &mut err)
}

fn main(rt: HostRuntime) -> ExitCode {
    let Ok(words) = words(&rt) else {
        return ExitCode::from(OUT_OF_MEMORY);
    };
    let printed = match words.as_slice() {
        [word] if word.as_str() == "--help" => rt.println(HELP),
        [word] if word.as_str() == "--version" => rt.println(VERSION),
        words => return serve(&rt, words).exit_code(),
    };
    match printed {
        Ok(()) => ExitCode::SUCCESS,
        Err(_) => ExitCode::from(5),
    }
}
