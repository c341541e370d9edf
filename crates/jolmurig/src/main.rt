//! The program `jolmurig`: shows what Kerberos octets hold.
#![tactic(auto)]

mod answer;
mod calls;
mod check;
mod clock;
mod convert;
mod engine;
mod failure;
mod fault;
mod files;
mod help;
mod hints;
mod input;
mod judge;
mod keys;
mod list;
mod openers;
mod passwords;
mod proxy;
mod terms;
mod unknown;
mod warning;

use calls::Library;
use clock::Clock;
use engine::reject;
pub use engine::run;
use failure::arguments_failure;
use files::{FileError, Files, file_error};
use krb_show_any::Everything;
use std::alloc::Global;
use std::process::ExitCode;
use std::time::{SystemTime, UNIX_EPOCH};
use std::{env, fs, io};

/// The files and the clock of the machine that the program runs on.
#[derive(Drop)]
struct HostFiles<'a> {
    rt: &'a HostRuntime,
}

impl<'a> Files for HostFiles<'a> {
    ghost gives = { λ _ _ _. Unit {0} };

    fn octets_of(&self, _alloc: Global, name: &str) -> Result<Vec<u8>, FileError> {
        match fs::read(self.rt, name) {
            Ok(octets) => Ok(octets),
            Err(error) => Err(file_error(&error)),
        }
    }
}

impl<'a> Clock for HostFiles<'a> {
    ghost ticks = { λ _ _. Unit {0} };

    fn seconds(&self) -> Option<i64> {
        let Ok(now) = SystemTime::now(self.rt) else {
            return None;
        };
        let Ok(since) = now.duration_since(UNIX_EPOCH) else {
            return None;
        };
        i64::try_from(since.as_secs()).ok()
    }
}

/// The arguments after the program's name.
fn arguments(rt: &HostRuntime) -> io::Result<Vec<String>> {
    Ok(env::args(rt)?.skip(1).collect(rt.alloc())?)
}

fn main(rt: HostRuntime) -> ExitCode {
    let mut errors = rt.stderr();
    let ended = match arguments(&rt) {
        Ok(arguments) => {
            let mut input = rt.stdin().lock();
            let mut output = rt.stdout();
            let files = HostFiles { rt: &rt };
            run::<Everything, Library, _, _, _, _>(
                rt.alloc(),
                arguments.as_slice(),
                &files,
                &mut input,
                &mut output,
                &mut errors,
            )
        }
        Err(error) => reject(rt.alloc(), &arguments_failure(error), &mut errors),
    };
    ExitCode::from(ended.status)
}
