//! `flaskd`: runs the program over standard input and standard output.
#![tactic(auto)]

use flask_io::{ReaderSource, WriterSink};
use flask_sid::{Memory, Word};
use flaskd_run::{NoStops, Status, flaskd, status_text};
use std::alloc::Global;
use std::io::{self, ErrorKind};
use std::process::ExitCode;

fn main(rt: HostRuntime) -> io::Result<ExitCode> {
    let status = match texts(&rt) {
        Ok(texts) => match words_of(rt.alloc(), &texts) {
            Ok(words) => {
                let mut source = ReaderSource::new(rt.stdin());
                let mut sink = WriterSink::new(rt.stdout());
                flaskd(
                    &rt,
                    rt.alloc(),
                    words.as_slice(),
                    &mut source,
                    &mut sink,
                    &NoStops,
                )
            }
            Err(Memory) => Status::Memory,
        },
        Err(status) => status,
    };
    if status != Status::Ok {
        // The exit status tells the end also where there is no memory for its text.
        if let Ok(text) = status_text(rt.alloc(), &status) {
            let text = str::from_utf8(text.as_bytes()).unwrap_or("");
            eprintln!(rt; "{text}")?;
        }
    }
    Ok(ExitCode::from(status.code()))
}

/// The words of the command, without the program's own name. A word that is not UTF-8 is none of a command.
fn texts(rt: &HostRuntime) -> Result<Vec<String>, Status> {
    match std::env::args(rt) {
        Ok(args) => args.skip(1).collect(rt.alloc()).map_err(|_| Status::Memory),
        Err(e) if e.kind() == ErrorKind::OutOfMemory => Err(Status::Memory),
        Err(_) => Err(Status::Usage),
    }
}

/// The words as bytes.
fn words_of(alloc: Global, texts: &[String]) -> Result<Vec<Word<'_>>, Memory> {
    let mut words = Vec::new(alloc);
    for text in texts {
        words.push(Word::new(text.as_bytes()))?;
    }
    Ok(words)
}
