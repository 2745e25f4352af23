//! Texts that are reports, and texts that are none.

use rl_report::fault::{ReportError, ReportFault};
use rl_report::parse::parse_report;
use rl_report::printed::print_report;
use std::test::Fail;

/// A report of each form, with each kind of line.
const REPORTS: [&str; 5] = [
    "rolis serial\nitems 2\nitem 1 2 1 1 done 70 80\nitem 1 3 16 8192 declined 64\ntables\nrow acct 0 70\nrow b_1 65535 1 2 3 18446744073709551615\n",
    "rolis steps\nrefused 1 2 1 changed a 0 0 2199023255556\nrefused 1 2 1 locked a 0 1\nitems 0\ntables\n",
    "rolis sim\nopened 1 1 0\ndenied 7 1 order 1\ndenied 38 2 promised 2\ndenied 39 3 ballot 2\nnomessage 0\nrefused 1 1 1 locked a 1 1\nnode 2 up promised 1 follower watermark 0 0 behind\nstream 1 ballot 0 len 0 known 0\nrow a 0 5\nnode 1 lost\nitems 1\nitem 1 2 1 1 done\nnode 1 up promised 4 candidate 4 1 2 watermark 1 2 at\nstream 1 ballot 1 len 2 known 2\nstream 2 ballot 1 len 2 known 2\nrow a 0 5\nnode 2 down promised 1\nstream 1 ballot 1 len 2 known 0\nnode 3 lost\nnode 4 up promised 2 leader 2 opening watermark 0 0 at\nstream 1 ballot 0 len 0 known 0\nnode 5 up promised 2 leader 2 open watermark 2 1099511627775 at\nstream 1 ballot 0 len 0 known 0\n",
    "rolis live\nitems 0\nnode 1\nrow acct 0 100\nnode 2\n",
    "rolis sim\nitems 0\nnode 1 lost\n",
];

/// Texts, with the first line that is wrong and what is wrong with it.
const FAULTS: [(&str, u32, ReportFault); 30] = [
    ("", 1, ReportFault::End),
    ("\n", 1, ReportFault::Title),
    ("rolis Serial\n", 1, ReportFault::Title),
    ("rolis  serial\n", 1, ReportFault::Title),
    ("rolis serial", 1, ReportFault::End),
    ("rolis serial\n", 2, ReportFault::End),
    ("rolis serial\nitems 01\n", 2, ReportFault::Form),
    (
        "rolis serial\nitems 18446744073709551616\n",
        2,
        ReportFault::Form,
    ),
    ("rolis serial\nopened 1 1 0\n", 2, ReportFault::Form),
    ("rolis serial\nitems 1\n", 3, ReportFault::End),
    ("rolis serial\nitems 1\ntables\n", 3, ReportFault::Count),
    (
        "rolis serial\nitems 1\nitem 1 2 1 done\n",
        3,
        ReportFault::Form,
    ),
    (
        "rolis serial\nitems 1\nitem 4294967296 2 1 1 done\n",
        3,
        ReportFault::Form,
    ),
    (
        "rolis serial\nitems 1\nitem 1 2 1 1 done \n",
        3,
        ReportFault::Form,
    ),
    (
        "rolis serial\nitems 0\nitem 1 2 1 1 done\ntables\n",
        3,
        ReportFault::Count,
    ),
    ("rolis serial\nitems 0\n", 3, ReportFault::End),
    ("rolis serial\nitems 0\ntables", 3, ReportFault::End),
    (
        "rolis serial\nitems 0\ntables\nrow a 0\n",
        4,
        ReportFault::Form,
    ),
    (
        "rolis serial\nitems 0\ntables\nrow a 0 1 2 3 4 5\n",
        4,
        ReportFault::Form,
    ),
    (
        "rolis serial\nitems 0\ntables\nrow  0 1\n",
        4,
        ReportFault::Form,
    ),
    (
        "rolis serial\nitems 0\ntables\nitem 1 2 1 1 done\n",
        4,
        ReportFault::Form,
    ),
    ("rolis steps\nopened 1 1 0\n", 2, ReportFault::Form),
    ("rolis sim\nitems 0\n", 3, ReportFault::End),
    ("rolis sim\nitems 0\nnode 2 lost\n", 3, ReportFault::Form),
    ("rolis sim\nitems 0\nnode 1\n", 3, ReportFault::Form),
    (
        "rolis sim\nitems 0\nnode 1 down promised 1\n",
        4,
        ReportFault::End,
    ),
    (
        "rolis sim\nitems 0\nnode 1 down promised 1\nstream 1 ballot 0 len 0 known 0\nrow a 0 1\n",
        5,
        ReportFault::Form,
    ),
    (
        "rolis sim\nitems 0\nnode 1 down promised 1\nstream 2 ballot 0 len 0 known 0\n",
        4,
        ReportFault::Form,
    ),
    (
        "rolis live\nitems 0\nnode 1\nnode 3\n",
        4,
        ReportFault::Form,
    ),
    (
        "rolis live\nitems 0\nnode 1\nrow \u{7f} 0 1\n",
        4,
        ReportFault::Form,
    ),
];

#[test]
fn reports_are_read_and_printed_again(rt: HostRuntime) -> Result<(), Fail> {
    for text in REPORTS {
        // `parse_report` takes a text of fewer than 2^32 - 1 bytes.
        assert!(rt; text.len() < 2000);
        let Ok(report) = parse_report(rt.alloc(), text.as_bytes()) else {
            return Err("no report".into());
        };
        let printed = print_report(rt.alloc(), &report)?;
        assert_eq!(rt; printed.as_slice(), text.as_bytes());
    }
    Ok(())
}

#[test]
fn faults_have_their_lines(rt: HostRuntime) -> Result<(), Fail> {
    for (text, line, kind) in FAULTS {
        assert!(rt; text.len() < 2000);
        let fault = parse_report(rt.alloc(), text.as_bytes()).err();
        assert_eq!(rt; fault, Some(ReportError::Fault { line, kind }), "{text}");
    }
    Ok(())
}
