//! The program `krbtool`: reads, seals and opens the encrypted part of a ticket.
#![tactic(auto)]

use krbtool_engine::{arguments_failure, reject, run};
use std::process::ExitCode;
use std::{env, io};

/// The arguments after the program's name.
fn arguments(rt: &HostRuntime) -> io::Result<Vec<String>> {
    Ok(env::args(rt)?.skip(1).collect(rt.alloc())?)
}

fn main(rt: HostRuntime) -> ExitCode {
    let mut errors = rt.stderr();
    let status = match arguments(&rt) {
        Ok(arguments) => {
            let mut input = rt.stdin().lock();
            let mut output = rt.stdout();
            run(
                rt.alloc(),
                arguments.as_slice(),
                &mut input,
                &mut output,
                &mut errors,
            )
        }
        Err(error) => reject(&arguments_failure(error), &mut errors),
    };
    ExitCode::from(status)
}
