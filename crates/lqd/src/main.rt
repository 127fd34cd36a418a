//! lqd: a query server for the state of a monitoring core.
//!
//! `lqd ask OBJECTS` reads a Nagios object file, and serves the queries and external commands of
//! its standard input. `lqd load N` does so with the objects, the log and the stream that the
//! number generates, and tells of the replies in one line.
#![tactic(auto)]

#[cfg(test)]
mod tests;

use lq_outside::{StandardStream, StdFiles, StdSink, StdSource};
use lq_program::{run, words};
use std::process::ExitCode;

fn main(rt: HostRuntime) -> ExitCode {
    let mut files = StdFiles::new(&rt);
    let mut input = StdSource::new(rt.stdin());
    let mut output = StdSink::new(StandardStream::Output(rt.stdout()));
    let mut faults = StdSink::new(StandardStream::Errors(rt.stderr()));
    let status = match words(&rt) {
        Ok(words) => run(
            &rt,
            rt.alloc(),
            &words,
            &mut files,
            &mut input,
            &mut output,
            &mut faults,
        ),
        Err(fault) => {
            let _ = fault.report(&mut faults);
            fault.status()
        }
    };
    ExitCode::from(status)
}
