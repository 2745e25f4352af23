//! Lines of events, and events that seeds draw.

use rl_events::event::{Event, Events};
use rl_events::expand::expand;
use rl_events::kind::Kind;
use rl_events::line::{EventFault, parse_event};
use rl_events::printed::print_event;
use std::test::Fail;

/// An event of each kind, with its line.
const LINES: [(Event, &str); 15] = [
    (
        Event::Step {
            node: 3,
            worker: 20,
            count: 100000,
        },
        "step 3 20 100000",
    ),
    (Event::Flush { node: 1, worker: 2 }, "flush 1 2"),
    (Event::Idle { node: 2, worker: 1 }, "idle 2 1"),
    (
        Event::Dlv {
            number: 18446744073709551615,
        },
        "dlv 18446744073709551615",
    ),
    (Event::Discard { number: 0 }, "drop 0"),
    (Event::All, "all"),
    (Event::Elect { node: 1 }, "elect 1"),
    (Event::Tick { node: 2 }, "tick 2"),
    (Event::Crash { node: 3 }, "crash 3"),
    (Event::Back { node: 4 }, "back 4"),
    (Event::Lose { node: 5 }, "lose 5"),
    (Event::Play { node: 6, stream: 7 }, "play 6 7"),
    (Event::PlayAll { node: 7 }, "playall 7"),
    (Event::Show { node: 1 }, "show 1"),
    (
        Event::Random {
            seed: 10,
            count: 900,
        },
        "random 10 900",
    ),
];

/// Lines that are no event in a world of three nodes and two workers, with the rule that they break.
const FAULTS: [(&str, Kind); 9] = [
    ("all\n", Kind::Byte),
    ("", Kind::Word),
    ("# all", Kind::Word),
    ("step 1 1 1 1 1 1", Kind::Count),
    ("play 1", Kind::Count),
    ("step 4 x 1", Kind::Range),
    ("step x 4 1", Kind::Number),
    ("dlv 0", Kind::Range),
    ("flush 1 3", Kind::Range),
];

/// What `random 7 20`, `step 2 1 9` and `random 3 3` stand for in that world: the words are those of
/// another program.
const WRITTEN_OUT: [&str; 24] = [
    "flush 3 1",
    "tick 1",
    "all",
    "step 3 1 1",
    "all",
    "all",
    "step 2 1 1",
    "step 2 2 1",
    "step 3 2 1",
    "step 2 2 1",
    "all",
    "step 3 2 1",
    "step 3 2 1",
    "all",
    "idle 1 2",
    "step 2 2 1",
    "idle 3 2",
    "step 1 2 1",
    "step 1 1 1",
    "step 3 1 1",
    "step 2 1 9",
    "all",
    "play 1 1",
    "flush 2 1",
];

#[test]
fn each_kind_has_its_line(rt: HostRuntime) -> Result<(), Fail> {
    for (event, line) in LINES {
        let printed = print_event(rt.alloc(), &event)?;
        assert_eq!(rt; printed.as_slice(), line.as_bytes(), "{line}");
        assert_eq!(rt; parse_event(line.as_bytes(), 7, 20), Ok(event), "{line}");
    }
    Ok(())
}

#[test]
fn faults_are_told(rt: HostRuntime) {
    for (line, kind) in FAULTS {
        let fault = parse_event(line.as_bytes(), 3, 2).err();
        assert_eq!(rt; fault, Some(EventFault { kind }), "{line}");
    }
}

#[test]
fn random_events_are_written_out(rt: HostRuntime) -> Result<(), Fail> {
    let mut events = Events::new(rt.alloc());
    for line in ["random 7 20", "step 2 1 9", "random 3 3"] {
        events.push(parse_event(line.as_bytes(), 3, 2)?)?;
    }
    let written = expand(rt.alloc(), &events, 3, 2)?;
    assert_eq!(rt; written.len(), WRITTEN_OUT.len());
    for (event, line) in written.as_slice().iter().zip(WRITTEN_OUT) {
        assert_eq!(rt; Ok(*event), parse_event(line.as_bytes(), 3, 2), "{line}");
    }
    Ok(())
}
