//! Runs of `live`, and what `check` says of them.

use rl_app::checker::check;
use rl_app::live::live;
use rl_base::list::{Bytes, Fails};
use rl_base::memory::Memory;
use rl_io::memory_sink::MemSink;
use rl_io::memory_source::MemSource;
use rl_live::gate::Gate;
use std::alloc::Global;
use std::sync::Wait;
use std::thread::Threads;

/// A status, and what was written with it.
#[derive(Drop)]
pub struct Answered {
    pub code: u8,
    pub text: Bytes,
}

/// What `live` answers to a script, with a gate.
pub fn run<R: Threads + Wait + Sync, G: Gate>(
    rt: &R,
    alloc: Global,
    script: &str,
    gate: &G,
) -> Result<Answered, Memory> {
    let input = Bytes::from_slice(alloc, script.as_bytes())?;
    let mut source = MemSource::new(input, 4096, Fails::new(alloc));
    let mut sink = MemSink::new(alloc, 4096, 65536, Fails::new(alloc))?;
    let (status, _run) = live(rt, alloc, &mut source, &mut sink, gate);
    let text = Bytes::from_slice(alloc, sink.bytes())?;
    Ok(Answered {
        code: status.code,
        text,
    })
}

/// What `check` says of the report of a script.
pub fn verdict(alloc: Global, script: &str, report: &Bytes) -> Result<Bytes, Memory> {
    let mut input = Vec::from_slice(alloc, script.as_bytes())?;
    input.extend_from_slice(b"report\n")?;
    input.extend_from_slice(report.as_slice())?;
    let mut source = MemSource::new(Bytes::from_vec(input), 4096, Fails::new(alloc));
    let mut sink = MemSink::new(alloc, 4096, 4096, Fails::new(alloc))?;
    check(alloc, &mut source, &mut sink);
    Bytes::from_slice(alloc, sink.bytes())
}
