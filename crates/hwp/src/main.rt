//! The program `hwp`: its words and standard streams to a top call, and its exit status.
#![tactic(auto)]

use hwp_io::{StdSink, StdSource};
use hwp_top::{Done, Open, top, top_run};
use std::process::ExitCode;
use std::sync::Wait;
use std::thread::Threads;
use std::{env, io};

/// What `--version` prints.
const VERSION: &str = "hwp 0.1.0";

/// What `--help` prints.
const HELP: &str = "\
usage: hwp step [tlb] < SCRIPT > REPORT
       hwp run [tlb] < SCRIPT > REPORT
       hwp check < SCRIPT-AND-REPORT
       hwp gen N > SCRIPT
       hwp sum N > SUMMARY

Simulates Linux memory failure (hwpoison) behind machine-check banks, on a
machine of its own. docs/FORMATS.md has the formats.

  hwp step     reads a fault script from standard input, runs it on its
               schedule, and writes the report to standard output
  hwp run      does the same with each processor on a thread of its own, in
               whatever order they come; the schedule isn't used
  hwp step tlb, hwp run tlb
               the same, with a cache of 16 translations for each processor,
               filled by loads and flushed by whoever changes a translation
  hwp check    reads a script and the report behind it, and writes `legal`, or
               `not PLACE RULE`: the rule that is broken, and where first
  hwp gen N    writes the fault script of seed N, a number below 2^64
  hwp sum N    runs that script and writes the summary of its report
  hwp --help   prints this text
  hwp --version

Exit status: 0 done, 1 done and the report isn't legal, 8 done and the machine
stopped, 2 wrong words, 3 the script is refused, 4 a read failed, 5 a write
failed, 6 out of memory.

docs/TUTORIAL.md makes a race in ten steps, and `hwp-trace --help` tells of the
program that shows each turn of a run.";

/// The exit status of a program that is out of memory.
const OUT_OF_MEMORY: u8 = 6;

/// The words after the program's name.
fn words(rt: &HostRuntime) -> io::Result<Vec<String>> {
    let mut words = Vec::new(rt.alloc());
    for word in env::args(rt)?.skip(1) {
        words.push(word)?;
    }
    Ok(words)
}

/// Whether the first word asks for a run on threads.
fn asks_run(words: &[String]) -> bool {
    words.first().is_some_and(|word| word.as_str() == "run")
}

/// Runs a top call over the standard streams.
fn serve<T: Threads + Wait + Sync>(threads: &T, rt: &HostRuntime, words: &[String]) -> Done {
    let mut src = StdSource::new(rt.reader());
    let mut out = StdSink::new(io::writer(rt));
    let mut err = StdSink::new(rt.stderr());
    if asks_run(words) {
        top_run(
            threads,
            rt.alloc(),
            words,
            &mut src,
            &mut out,
            &mut err,
            &Open,
        )
    } else {
        top(rt.alloc(), words, &mut src, &mut out, &mut err)
    }
}

fn main(rt: HostRuntime) -> ExitCode {
    let Ok(words) = words(&rt) else {
        return ExitCode::from(OUT_OF_MEMORY);
    };
    let printed = match words.as_slice() {
        [word] if word.as_str() == "--help" => rt.println(HELP),
        [word] if word.as_str() == "--version" => rt.println(VERSION),
        words => return serve(&rt, &rt, words).exit_code(),
    };
    match printed {
        Ok(()) => ExitCode::SUCCESS,
        Err(_) => ExitCode::from(5),
    }
}
