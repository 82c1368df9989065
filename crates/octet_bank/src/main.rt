//! `octet_bank FIRST SECOND`: two tellers pay these amounts into one account, each on a thread of its own. The run is
//! recorded for `octet`, and run again by what was recorded.
#![tactic(auto)]

mod bank;
mod beside;
mod fault;
mod report;
mod teller;

use bank::serve;
use fault::Fault;
use octet_base::RealDesk;
use std::env;
use std::io::ErrorKind;
use std::process::ExitCode;

/// The exit status. A fault is said on standard error.
fn status_of(rt: &impl Eprint, served: Result<(), Fault>) -> ExitCode {
    match served {
        Ok(()) => ExitCode::SUCCESS,
        Err(fault) => {
            let _ = eprintln!(rt; "octet_bank: {fault}");
            ExitCode::from(fault.code())
        }
    }
}

fn main(rt: HostRuntime) -> ExitCode {
    let alloc = rt.alloc();
    let words = match env::args(&rt) {
        Ok(args) => args.skip(1).collect::<Vec<String>>(alloc),
        Err(fault) if fault.kind() == ErrorKind::OutOfMemory => {
            return status_of(&rt, Err(Fault::Memory));
        }
        // Words that are not UTF-8 are no amounts.
        Err(_) => Ok(Vec::new(alloc)),
    };
    let Ok(words) = words else {
        return status_of(&rt, Err(Fault::Memory));
    };
    let Ok(files) = rt.clone() else {
        return status_of(&rt, Err(Fault::Memory));
    };
    let mut desk = RealDesk::new(files, rt.stdout());
    status_of(&rt, serve(&rt, alloc, &words, &mut desk))
}
