//! The verdict on a right report, and on one that is wrong for each reason.

use rl_check::check::check_report;
use rl_check::verdict::{Verdict, Why};
use rl_script::script::parse;
use std::test::Fail;

/// A script of one request.
const SCRIPT: &str =
    "rolis 1\ntable t 2 1\nrow t 0 5\ntxn 1\nget t 0 0 r0\nadd r0 r0 1\nput t 0 r0\nout r0\nend\n";

/// Its right report.
const RIGHT: &str = "rolis live\nitems 1\nitem 1 2 1 1 done 6\nnode 1\nrow t 0 6\n";

/// Wrong reports, with the first line that is wrong, and why.
const WRONG: [(&str, u32, Why); 9] = [
    ("rolis live\nitems 1\n", 3, Why::Form),
    ("rolis serial\nitems 0\ntables\n", 1, Why::Title),
    (
        "rolis live\nitems 1\nitem 1 1 1 1 done 6\nnode 1\nrow t 0 6\n",
        3,
        Why::Stamp,
    ),
    (
        "rolis live\nitems 1\nitem 1 2 1 2 done 6\nnode 1\nrow t 0 6\n",
        3,
        Why::Request,
    ),
    (
        "rolis live\nitems 1\nitem 1 2 1 1 done 7\nnode 1\nrow t 0 6\n",
        3,
        Why::Reply,
    ),
    ("rolis live\nitems 0\nnode 1\nrow t 0 5\n", 2, Why::Missing),
    (
        "rolis live\nitems 1\nitem 1 2 1 1 done 6\nnode 1\nrow t 0 5\n",
        5,
        Why::Table,
    ),
    (
        "rolis live\nitems 1\nitem 1 2 1 1 done 6\nnode 1\n",
        5,
        Why::Table,
    ),
    (
        "rolis live\nitems 1\nitem 1 2 1 1 done 6\nnode 1\nrow t 0 6\nnode 2\n",
        6,
        Why::Nodes,
    ),
];

#[test]
fn a_right_report_is_right(rt: HostRuntime) -> Result<(), Fail> {
    // A script and a report have fewer than 2^32 - 1 bytes.
    assert!(rt; SCRIPT.len() < 2000);
    assert!(rt; RIGHT.len() < 2000);
    let Ok(script) = parse(rt.alloc(), SCRIPT.as_bytes()) else {
        return Err("no script".into());
    };
    let verdict = check_report(rt.alloc(), &script, RIGHT.as_bytes())?;
    assert_eq!(rt; verdict, Verdict::Yes { items: 1 });
    Ok(())
}

#[test]
fn wrong_reports_are_wrong(rt: HostRuntime) -> Result<(), Fail> {
    assert!(rt; SCRIPT.len() < 2000);
    let Ok(script) = parse(rt.alloc(), SCRIPT.as_bytes()) else {
        return Err("no script".into());
    };
    for (text, line, why) in WRONG {
        assert!(rt; text.len() < 2000);
        let verdict = check_report(rt.alloc(), &script, text.as_bytes())?;
        assert_eq!(rt; verdict, Verdict::No { line, why }, "{text}");
    }
    Ok(())
}
