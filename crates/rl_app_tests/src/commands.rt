use rl_app::answer::Status;
use rl_app::command::rolis;
use rl_app::live::live;
use rl_app::serial::serial;
use rl_app::sim::sim;
use rl_app::steps::steps;
use rl_base::list::{Bytes, Fails};
use rl_base::memory::Memory;
use rl_io::memory_sink::MemSink;
use rl_io::memory_source::MemSource;
use rl_live::gate::OpenGate;
use std::alloc::Global;
use std::process::Abort;
use std::test::Fail;

const TRANSFERS: &str =
    "rolis 1\ntable acct 4 1\nrow acct 0 100\nrow acct 1 50\ntxn 1\nget acct 0 0 r0\nneed r0 ge 30\nsub r0 r0 30\nput acct 0 r0\nget acct 1 0 r1\nadd r1 r1 30\nput acct 1 r1\nout r0\nout r1\nend\ntxn 1\nget acct 1 0 r0\nneed r0 ge 5\nsub r0 r0 5\nput acct 1 r0\nget acct 2 0 r1\nadd r1 r1 5\nput acct 2 r1\nout r0\nout r1\nend\n";

/// The numbers of one call that fails, or of none.
fn failing(alloc: Global, call: u64) -> Result<Fails, Memory> {
    let mut fails = Fails::new(alloc);
    fails.push(call)?;
    Ok(fails)
}

/// A source of an input whose call of a number fails.
fn source_of(alloc: Global, input: &[u8], failed: u64) -> Result<MemSource, Memory> {
    let bytes = Bytes::from_slice(alloc, input)?;
    Ok(MemSource::new(bytes, 1000, failing(alloc, failed)?))
}

/// A sink that takes 40 bytes at a call, whose call of a number fails.
fn sink_with(alloc: Global, failed: u64) -> Result<MemSink, Memory> {
    MemSink::new(alloc, 40, 1000, failing(alloc, failed)?)
}

/// A call has this status, and the sink holds this text.
fn ended(rt: &impl Abort, status: Status, sink: &MemSink, code: u8, text: &str) {
    assert_eq!(rt; status.code, code);
    assert_eq!(rt; sink.bytes(), text.as_bytes());
}

#[test]
fn serial_reports(rt: HostRuntime) -> Result<(), Fail> {
    let mut source = source_of(rt.alloc(), b"rolis 1\ntable t 2 1\nrow t 1 9", 0)?;
    let mut sink = sink_with(rt.alloc(), 0)?;
    let status = serial(rt.alloc(), &mut source, &mut sink);
    ended(
        &rt,
        status,
        &sink,
        0,
        "rolis serial\nitems 0\ntables\nrow t 1 9\n",
    );
    Ok(())
}

#[test]
fn steps_reports(rt: HostRuntime) -> Result<(), Fail> {
    let mut source = source_of(rt.alloc(), b"rolis 1\ntable t 2 1\nrow t 1 9", 0)?;
    let mut sink = sink_with(rt.alloc(), 0)?;
    let status = steps(rt.alloc(), &mut source, &mut sink);
    ended(
        &rt,
        status,
        &sink,
        0,
        "rolis steps\nitems 0\ntables\nrow t 1 9\n",
    );
    Ok(())
}

#[test]
fn sim_reports(rt: HostRuntime) -> Result<(), Fail> {
    let mut source = source_of(rt.alloc(), b"rolis 1\ntable a 1 1\nevents\ndlv 1", 0)?;
    let mut sink = sink_with(rt.alloc(), 0)?;
    let status = sim(rt.alloc(), &mut source, &mut sink);
    ended(
        &rt,
        status,
        &sink,
        0,
        "rolis sim\nnomessage 1\nitems 0\nnode 1 up promised 0 follower watermark 0 0 at\nstream 1 ballot 0 len 0 known 0\n",
    );
    Ok(())
}

#[test]
fn live_reports_and_gives_its_run(rt: HostRuntime) -> Result<(), Fail> {
    let mut source = source_of(rt.alloc(), b"rolis 1\ntable t 2 1\nrow t 1 9", 0)?;
    let mut sink = sink_with(rt.alloc(), 0)?;
    let (status, run) = live(&rt, rt.alloc(), &mut source, &mut sink, &OpenGate);
    assert!(rt; run.is_some());
    ended(
        &rt,
        status,
        &sink,
        0,
        "rolis live\nitems 0\nnode 1\nrow t 1 9\n",
    );
    Ok(())
}

#[test]
fn a_failed_read_is_a_read_fault(rt: HostRuntime) -> Result<(), Fail> {
    let mut source = source_of(rt.alloc(), TRANSFERS.as_bytes(), 1)?;
    let mut sink = sink_with(rt.alloc(), 0)?;
    let status = serial(rt.alloc(), &mut source, &mut sink);
    ended(&rt, status, &sink, 5, "read fault\n");
    Ok(())
}

#[test]
fn a_failed_write_leaves_a_prefix(rt: HostRuntime) -> Result<(), Fail> {
    let mut source = source_of(rt.alloc(), TRANSFERS.as_bytes(), 0)?;
    let mut sink = sink_with(rt.alloc(), 2)?;
    let status = serial(rt.alloc(), &mut source, &mut sink);
    ended(
        &rt,
        status,
        &sink,
        6,
        "rolis serial\nitems 2\nitem 1 2 1 1 done 7",
    );
    Ok(())
}

#[test]
fn usage_that_cant_be_written_is_a_failed_write(rt: HostRuntime) -> Result<(), Fail> {
    let mut source = source_of(rt.alloc(), TRANSFERS.as_bytes(), 0)?;
    let mut sink = sink_with(rt.alloc(), 1)?;
    let status = rolis(&rt, rt.alloc(), &[], &mut source, &mut sink, &OpenGate);
    ended(&rt, status, &sink, 6, "");
    Ok(())
}

#[test]
fn a_long_input_passes_the_limit(rt: HostRuntime) -> Result<(), Fail> {
    let long = vec![in rt.alloc(); b' '; 4194305]?;
    let mut source = source_of(rt.alloc(), long.as_slice(), 0)?;
    let mut sink = sink_with(rt.alloc(), 0)?;
    let status = serial(rt.alloc(), &mut source, &mut sink);
    ended(&rt, status, &sink, 4, "limit input 4194304\n");
    Ok(())
}
