//! Small scripts at the edges: what `check` says of the report, and how it ends.

use crate::runs::{run, verdict};
use rl_base::memory::Memory;
use rl_live::gate::OpenGate;
use std::alloc::Global;
use std::test::Fail;

/// A script, in which all requests are the same, and its report.
#[derive(Clone, Copy)]
struct Case {
    /// The settings and tables.
    head: &'static str,
    /// How many requests each of three workers has.
    counts: [u32; 3],
    /// The ops of each request.
    ops: &'static str,
    /// What `check` says.
    said: &'static str,
    /// The last lines of the report.
    end: &'static str,
}

/// Adds 1 to key 0.
const ADD: &str = "get a 0 0 r0\nadd r0 r0 1\nput a 0 r0\nout r0\n";

/// Links that lose nearly everything; no requests; lists of very different lengths; requests that all decline.
const CASES: [Case; 4] = [
    Case {
        head: "nodes 3\nworkers 3\nbatch 2\nloss 999\nseed 7\ntable a 1 1\n",
        counts: [5, 4, 3],
        ops: ADD,
        said: "yes 12\n",
        end: "node 1\nrow a 0 12\nnode 2\nrow a 0 12\nnode 3\nrow a 0 12\n",
    },
    Case {
        head: "nodes 2\nworkers 3\ntable a 2 1\nrow a 1 9\n",
        counts: [0, 0, 0],
        ops: ADD,
        said: "yes 0\n",
        end: "rolis live\nitems 0\nnode 1\nrow a 1 9\nnode 2\nrow a 1 9\n",
    },
    Case {
        head: "workers 3\nbatch 64\ntable a 1 1\n",
        counts: [200, 0, 1],
        ops: ADD,
        said: "yes 201\n",
        end: "node 1\nrow a 0 201\n",
    },
    Case {
        head: "nodes 2\nworkers 3\nbatch 4\ntable a 1 1\nrow a 0 5\n",
        counts: [10, 10, 10],
        ops: "get a 0 0 r0\nneed r0 gt 5\nput a 0 1\n",
        said: "yes 30\n",
        end: "node 1\nrow a 0 5\nnode 2\nrow a 0 5\n",
    },
];

/// A script with so many requests for each worker.
fn script_of(alloc: Global, head: &str, counts: &[u32], ops: &str) -> Result<String, Memory> {
    let mut text = String::from_str(alloc, "rolis 1\n")?;
    text.push_str(head)?;
    let mut worker: u32 = 0;
    for &count in counts {
        worker = worker.wrapping_add(1);
        for _request in 0..count {
            write!(&mut text, "txn {worker}\n{ops}end\n")?;
        }
    }
    Ok(text)
}

#[test]
fn reports_of_scripts_at_the_edges_are_right(rt: HostRuntime) -> Result<(), Fail> {
    let alloc = rt.alloc();
    for case in CASES {
        let script = script_of(alloc, case.head, &case.counts, case.ops)?;
        let answered = run(&rt, alloc, script.as_str(), &OpenGate)?;
        let said = verdict(alloc, script.as_str(), &answered.text)?;
        assert_eq!(rt; said.as_slice(), case.said.as_bytes(), "{}", case.head);
        assert!(rt;
            answered.text.as_slice().ends_with(case.end.as_bytes()),
            "{}",
            case.head
        );
    }
    Ok(())
}

#[test]
fn a_long_list_passes_the_limit(rt: HostRuntime) -> Result<(), Fail> {
    let script = script_of(rt.alloc(), "", &[4095], "")?;
    let answered = run(&rt, rt.alloc(), script.as_str(), &OpenGate)?;
    assert_eq!(rt; answered.code, 4);
    assert_eq!(rt; answered.text.as_slice(), b"limit live 4096\n".as_slice());
    Ok(())
}
