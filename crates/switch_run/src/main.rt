//! `switch_run`: the access-control half of a wired switch, over a trace.
#![tactic(auto)]

#[cfg(test)]
mod tests;
mod words;

use either::Either;
use outside_core::{StdSink, StdSource};
use outside_link::{HostClock, UdpLink};
use race_run::{Ending, say_ending, status};
use std::process::ExitCode;
use switch_top::switch_top;
use words::{command_line, without_name};

fn main(rt: HostRuntime) -> ExitCode {
    let mut source = StdSource::new(rt.stdin());
    let mut out = StdSink::new(Either::Left(rt.stdout()));
    let mut err = StdSink::new(Either::Right(rt.stderr()));
    let Ok(line) = command_line(&rt) else {
        say_ending(&mut err, Ending::NoMemory);
        return ExitCode::from(status(Ending::NoMemory));
    };
    let words = without_name(&line);
    let mut link = UdpLink::new();
    let mut clock = HostClock::new(&rt);
    ExitCode::from(switch_top(
        &rt,
        rt.alloc(),
        words,
        &mut source,
        &mut out,
        &mut err,
        &mut link,
        &mut clock,
    ))
}
