//! `dtt`: scripts of MPI datatypes, answered line by line.
#![tactic(auto)]

use dt_base::{StdSink, StdSource};
use dt_call::{Status, dtt};
use std::process::ExitCode;
use std::rt::Env;
use std::{env, io};

/// The words after the program's name, or the status that ends the program without them: words that are no text are
/// wrong words.
fn words_of<R: Env + AllocGlobal>(rt: &R) -> Result<Vec<String>, Status> {
    let args = match env::args(rt) {
        Ok(args) => args,
        Err(fault) => {
            return Err(match fault.kind() {
                io::ErrorKind::OutOfMemory => Status::NoMemory,
                _ => Status::Usage,
            });
        }
    };
    match args.skip(1).collect(rt.alloc()) {
        Ok(words) => Ok(words),
        Err(_) => Err(Status::NoMemory),
    }
}

fn main(rt: HostRuntime) -> ExitCode {
    let mut source = StdSource::new(rt.stdin());
    let mut sink = StdSink::new(rt.stdout());
    let status = match words_of(&rt) {
        Ok(words) => dtt(rt.alloc(), &words, &mut source, &mut sink),
        Err(status) => status,
    };
    if let Status::Usage = status {
        let _ = eprintln!(rt; "usage: dtt run | certify NAME | check | migrate | gen N");
    }
    ExitCode::from(status as u8)
}
