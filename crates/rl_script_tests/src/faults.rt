//! What is wrong with texts, where it is not the plain case of an example.

use rl_base::limit::LimitName;
use rl_events::kind::Kind;
use rl_script::fault::ParseError;
use rl_script::script::parse;
use std::test::Fail;

/// Texts, with the first line that breaks a rule and the rule.
const FAULTS: [(&str, u32, Kind); 24] = [
    ("", 1, Kind::Header),
    ("\nrolis 1", 1, Kind::Header),
    ("rolis 1 \u{7f}", 1, Kind::Byte),
    ("rolis 1\nrolis 1", 2, Kind::Word),
    ("rolis 1\n# \u{7f}", 2, Kind::Byte),
    ("rolis 1\nelect 1", 2, Kind::Word),
    ("rolis 1\ntxn 1\nall", 3, Kind::Word),
    ("rolis 1\nevents\nend x", 3, Kind::Order),
    ("rolis 1\ntable t 1 1\nnodes 1", 3, Kind::Order),
    ("rolis 1\ntxn 1\nend\ntable t", 4, Kind::Order),
    ("rolis 1\ntxn 1\ntxn 1", 3, Kind::Order),
    ("rolis 1\nrow t 0 1 2 3 4 5", 2, Kind::Count),
    ("rolis 1\nworkers 2\ntxn 3", 3, Kind::Range),
    ("rolis 1\nworkers 2\nevents\nstep 1 3 1", 4, Kind::Range),
    ("rolis 1\nloss 0\nloss 1000", 3, Kind::Range),
    ("rolis 1\ntable t 1 1\n\ntable t 1 1", 4, Kind::Duplicate),
    ("rolis 1\ntable t 2 1\nrow t 2 x", 3, Kind::Range),
    ("rolis 1\nrow t 0 1\ntable t 1 1", 2, Kind::UnknownTable),
    ("rolis 1\ntxn 1\nput t 0 1 2 3 4", 3, Kind::UnknownTable),
    ("rolis 1\ntxn 1\nput t 0 1 2 3 4 5", 3, Kind::Count),
    ("rolis 1\ntxn 1\nout r01", 3, Kind::Register),
    (
        "rolis 1\ntxn 1\nout 18446744073709551616",
        3,
        Kind::Register,
    ),
    ("rolis 1\ntxn 1\nskip 1 eq 1 65", 3, Kind::Range),
    ("rolis 1\n# a comment\ntxn 1\nout 1", 5, Kind::Unended),
];

/// Texts that go on with some lines, how often these are repeated, and what is wrong.
const LONG: [(&str, &str, usize, ParseError); 3] = [
    (
        "rolis 1\n",
        "stop 5\n",
        64,
        ParseError::Fault {
            line: 65,
            kind: Kind::Duplicate,
        },
    ),
    // A line that passes both limits: elections are told first.
    (
        "rolis 1\nevents\nrandom 1 99936\n",
        "elect 1\n",
        65,
        ParseError::Limit {
            line: 68,
            name: LimitName::Elections,
            limit: 64,
        },
    ),
    (
        "rolis 1\n",
        "txn 1\nend\n",
        8193,
        ParseError::Limit {
            line: 16386,
            name: LimitName::Requests,
            limit: 8192,
        },
    ),
];

#[test]
fn faults_have_their_lines(rt: HostRuntime) -> Result<(), Fail> {
    for (text, line, kind) in FAULTS {
        // `parse` takes a text of fewer than 2^32 - 1 bytes.
        assert!(rt; text.len() < 1000);
        let fault = parse(rt.alloc(), text.as_bytes()).err();
        assert_eq!(rt; fault, Some(ParseError::Fault { line, kind }), "{text}");
    }
    Ok(())
}

#[test]
fn one_more_is_too_many(rt: HostRuntime) -> Result<(), Fail> {
    for (front, more, times, wanted) in LONG {
        let mut text = String::from_str(rt.alloc(), front)?;
        for _ in 0..times {
            text.push_str(more)?;
        }
        assert!(rt; text.len() < 1000000);
        let error = parse(rt.alloc(), text.as_bytes()).err();
        assert_eq!(rt; error, Some(wanted), "{more}");
    }
    Ok(())
}
