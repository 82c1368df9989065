//! `octet`: runs a threaded script, records the dependences between its threads in a log, and
//! says what each thread read.
#![tactic(auto)]

use octet_base::{OpenGate, RealDesk};
use octet_top::{Status, serve};
use std::env;
use std::io::ErrorKind;
use std::process::ExitCode;

fn main(rt: HostRuntime) -> ExitCode {
    let alloc = rt.alloc();
    let out_of_memory = ExitCode::from(Status::Memory.code());
    let words = match env::args(&rt) {
        Ok(args) => args.skip(1).collect::<Vec<String>>(alloc),
        Err(fault) if fault.kind() == ErrorKind::OutOfMemory => return out_of_memory,
        // Words that are not UTF-8 are no command.
        Err(_) => Ok(Vec::new(alloc)),
    };
    let Ok(words) = words else {
        return out_of_memory;
    };
    let Ok(files) = rt.clone() else {
        return out_of_memory;
    };
    let mut desk = RealDesk::new(files, rt.stdout());
    ExitCode::from(serve(&rt, alloc, &words, &mut desk, &OpenGate))
}
