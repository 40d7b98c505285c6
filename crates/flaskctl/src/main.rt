//! `flaskctl`: answers questions about a policy, over a file or standard input.
#![tactic(auto)]

use control_words::{Request, program, request_of};
use flask_io::ReaderSource;
use flaskctl_run::{Report, Stop, answer, read_input};
use std::fs;
use std::io::{self, ErrorKind};
use std::process::ExitCode;

fn main(rt: HostRuntime) -> io::Result<ExitCode> {
    let words = match texts(&rt) {
        Ok(words) => words,
        Err(stop) => return said(&rt, &stop),
    };
    let Ok(program) = program(rt.alloc()) else {
        return said(&rt, &Stop::Memory);
    };
    let matches = match program.try_get_matches_from(words.as_slice()) {
        Ok(matches) => matches,
        Err(error) => {
            let status = match error.print(&rt) {
                Ok(()) => error.exit_code() as u8,
                Err(_) => 5,
            };
            return Ok(ExitCode::from(status));
        }
    };
    let Some(request) = request_of(&matches) else {
        return Ok(ExitCode::from(2));
    };
    let bytes = match read_text(&rt, &request) {
        Ok(bytes) => bytes,
        Err(stop) => return said(&rt, &stop),
    };
    match answer(&rt, rt.alloc(), bytes.as_slice(), &request) {
        Ok(report) => written(&rt, &report),
        Err(stop) => said(&rt, &stop),
    }
}

/// The words of the command, with the program's own name. A word that is not UTF-8 is none of a command.
fn texts(rt: &HostRuntime) -> Result<Vec<String>, Stop> {
    match std::env::args(rt) {
        Ok(args) => args.collect(rt.alloc()).map_err(|_| Stop::Memory),
        Err(e) if e.kind() == ErrorKind::OutOfMemory => Err(Stop::Memory),
        Err(_) => Err(Stop::NoWord),
    }
}

/// Writes an answer to standard output. The status is 5 where that fails.
fn written(rt: &HostRuntime, report: &Report) -> io::Result<ExitCode> {
    let text = report.text.as_str();
    match print!(rt; "{text}") {
        Ok(()) => Ok(ExitCode::from(report.status)),
        Err(_) => Ok(ExitCode::from(5)),
    }
}

/// Says on standard error why there is no answer.
fn said(rt: &HostRuntime, stop: &Stop) -> io::Result<ExitCode> {
    let text = stop.text();
    eprintln!(rt; "flaskctl: {text}")?;
    Ok(ExitCode::from(stop.code()))
}

/// The bytes of the file that a request names, or of standard input.
fn read_text(rt: &HostRuntime, request: &Request<'_>) -> Result<Vec<u8>, Stop> {
    let alloc = rt.alloc();
    if request.file == "-" {
        return read_input(alloc, &mut ReaderSource::new(rt.stdin()));
    }
    let Ok(file) = fs::open(rt, request.file) else {
        return Err(Stop::ReadFault);
    };
    read_input(alloc, &mut ReaderSource::new(file))
}
