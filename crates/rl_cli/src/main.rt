//! Passes its words, its input and its output on to the top call.
#![tactic(auto)]

use rl_app::answer::{Status, deliver};
use rl_app::command::rolis;
use rl_io::standard_sink::StdSink;
use rl_io::standard_source::StdSource;
use rl_live::gate::OpenGate;
use std::alloc::AllocError;
use std::env;
use std::io::ErrorKind;
use std::process::ExitCode;

/// The words after the program's name. Words that are no text are none that a command has.
fn words(rt: &HostRuntime) -> Result<Vec<String>, AllocError> {
    match env::args(rt) {
        Ok(args) => args.skip(1).collect(rt.alloc()),
        Err(e) if e.kind() == ErrorKind::InvalidData => Ok(Vec::new(rt.alloc())),
        Err(_) => Err(AllocError),
    }
}

fn main(rt: HostRuntime) -> ExitCode {
    let mut source = StdSource::new(rt.stdin());
    let mut sink = StdSink::new(rt.stdout());
    let status = match words(&rt) {
        Ok(words) => rolis(
            &rt,
            rt.alloc(),
            words.as_slice(),
            &mut source,
            &mut sink,
            &OpenGate,
        ),
        Err(AllocError) => deliver(&mut sink, Status { code: 7 }, b"memory\n"),
    };
    ExitCode::from(status.code)
}
