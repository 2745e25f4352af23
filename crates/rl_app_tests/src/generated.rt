//! Generated scripts.

use rl_app::generator::gen_command;
use rl_base::list::Fails;
use rl_gen::generate::generate;
use rl_io::memory_sink::MemSink;
use rl_script::printed::print;
use std::alloc::{AllocError, Global};
use std::test::Fail;

/// The transaction and the events of the script of seed 0, with one node, one worker and one request.
const ENDING: &str =
    "row acct 63 1000\ntxn 1\nget acct 1 0 r0\nneed r0 ge 2\nsub r0 r0 2\nput acct 1 r0\nget acct 4 0 r1\nadd r1 r1 2\nput acct 4 r1\nend\nevents\nelect 1\nall\nall\nall\nall\nstep 1 1 5\nstep 1 1 5\nstep 1 1 5\nstep 1 1 5\nstep 1 1 5\nstep 1 1 5\nstep 1 1 5\nstep 1 1 5\nall\nrandom 0 2000\nflush 1 1\nidle 1 1\nall\nall\nall\nplayall 1\n";

/// The summary of the run of the script of seed 0, with one node, one worker and one request.
const SUMMARY: &str =
    "rolis gen\nrequests 1\nitems 1\nrefused 0\nnode 1 watermark 1 1099511627775 at sum 64000\n";

/// Words behind `gen`, with the status and what is written.
const ANSWERS: [(&str, u8, &str); 11] = [
    ("script 0 8 1 1", 4, "limit nodes 7\n"),
    ("script 0 8 17 2001", 4, "limit nodes 7\n"),
    ("script 0 7 17 2001", 4, "limit workers 16\n"),
    ("script 0 7 16 2001", 4, "limit requests 2000\n"),
    (
        "script 0 1 1 18446744073709551615",
        4,
        "limit requests 2000\n",
    ),
    ("script 0 0 1 1", 2, USAGE),
    ("script 4294967296 1 1 1", 2, USAGE),
    ("script 0 1 1", 2, USAGE),
    ("run 0 1 1 1", 0, SUMMARY),
    ("run 0 8 1 1", 4, "limit nodes 7\n"),
    ("run 0 0 1 1", 2, USAGE),
];

/// The line of words that are no command.
const USAGE: &str =
    "usage: rolis serial, steps, sim, live, check, gen script S N W R, gen run S N W R\n";

/// `gen` and some words behind it.
fn words(alloc: Global, behind: &str) -> Result<Vec<String>, AllocError> {
    let mut words = Vec::new(alloc);
    words.push(String::from_str(alloc, "gen")?)?;
    for word in behind.split(' ') {
        words.push(String::from_str(alloc, word)?)?;
    }
    Ok(words)
}

#[test]
fn a_script_is_generated(rt: HostRuntime) -> Result<(), Fail> {
    let alloc = rt.alloc();
    let mut sink = MemSink::new(alloc, 4096, 4096, Fails::new(alloc))?;
    let status = gen_command(alloc, words(alloc, "script 0 1 1 1")?.as_slice(), &mut sink);
    assert_eq!(rt; status.code, 0);
    assert!(rt;
        sink.bytes().starts_with(
            b"rolis 1\nnodes 1\nworkers 1\nbatch 8\nloss 0\nseed 0\ntable acct 64 1\nrow acct 0 1000\n"
        )
    );
    assert!(rt; sink.bytes().ends_with(ENDING.as_bytes()));
    Ok(())
}

#[test]
fn a_script_is_run_and_sizes_out_of_range_are_told(rt: HostRuntime) -> Result<(), Fail> {
    let alloc = rt.alloc();
    for (behind, code, text) in ANSWERS {
        let mut sink = MemSink::new(alloc, 4096, 4096, Fails::new(alloc))?;
        let status = gen_command(alloc, words(alloc, behind)?.as_slice(), &mut sink);
        assert_eq!(rt; status.code, code, "{behind}");
        assert_eq!(rt; sink.bytes(), text.as_bytes(), "{behind}");
    }
    Ok(())
}

#[test]
fn a_generated_script_can_be_printed(rt: HostRuntime) -> Result<(), Fail> {
    let script = generate(rt.alloc(), 7, 3, 4, 10)?;
    assert_eq!(rt; (script.nodes, script.workers, script.seed), (3, 4, 7));
    assert_eq!(rt; script.lists.len(), 4);
    let text = print(rt.alloc(), &script)?;
    assert!(rt;
        text.as_slice()
            .starts_with(b"rolis 1\nnodes 3\nworkers 4\n")
    );
    Ok(())
}
