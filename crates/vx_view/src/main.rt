// The program `vexc-view`: how a source is compiled, as a page that one can look at, or its graphs and traces as a plain text.
#![tactic(auto)]

mod beside;
mod given;
mod options;
mod planned;
mod shown;
mod stages;
mod whole_page;

use crate::options::{request_of, usage};
use crate::shown::show;
use std::process::ExitCode;
use std::{env, io};
use vx_io::real::{RealDepot, RealSink};
use vx_io::sink::Sink;
use vx_status::{Status, tell};

/// The words of the command line, the program's name first. A word that is no UTF-8 makes no command line.
fn words_of(rt: &HostRuntime) -> Result<Vec<String>, Status> {
    match env::args(rt) {
        Ok(words) => words.collect(rt.alloc()).map_err(|_| Status::NoMemory),
        Err(error) => match error.kind() {
            io::ErrorKind::OutOfMemory => Err(Status::NoMemory),
            _ => Err(Status::Usage),
        },
    }
}

/// Does what the words ask for, and puts the line of its answer.
fn perform<E: Sink>(rt: &HostRuntime, words: &[String], err: &mut E) -> Status {
    let mut depot = RealDepot::make(rt);
    let mut out = RealSink::make(rt.stdout());
    match request_of(rt.alloc(), words) {
        Ok(request) => {
            let status = show(rt.alloc(), &mut depot, &mut out, &request);
            tell(err, status)
        }
        Err(refused) => usage(err, &refused),
    }
}

fn main(rt: HostRuntime) -> ExitCode {
    let mut err = RealSink::make(rt.stderr());
    let status = match words_of(&rt) {
        Ok(words) => perform(&rt, words.as_slice(), &mut err),
        Err(status) => tell(&mut err, status),
    };
    ExitCode::from(status.number())
}
