//! The texts of errors, and of what they name.

use rl_base::flaw::Flaw;
use rl_base::limit::LimitName;
use rl_base::stamp::Stamp;
use rl_cut::family::ExtendError;
use rl_election::recover_error::RecoverError;
use rl_events::expand::ExpandError;
use rl_events::kind::Kind;
use rl_events::line::EventFault;
use rl_fields::decode_error::DecodeError;
use rl_io::source::ReadError;
use rl_net::net_error::{NetError, NoMessage};
use rl_paxos::refused::Refused;
use rl_script::fault::ParseError;
use rl_stream::propose_error::ProposeError;
use rl_tables::layout::KeyOutOfRange;
use rl_value::schema::DeclareError;
use std::alloc::Global;
use std::fmt::Display;
use std::process::Abort;
use std::test::Fail;

/// Fails where an error is printed in another way.
fn says<E: Display>(rt: &impl Abort, alloc: Global, error: &E, text: &str) -> Result<(), Fail> {
    assert_eq!(rt; error.to_string(alloc)?.as_str(), text);
    Ok(())
}

#[test]
fn an_error_says_what_is_wrong(rt: HostRuntime) -> Result<(), Fail> {
    let alloc = rt.alloc();
    says(&rt, alloc, &ReadError::ReadFault, "read fault")?;
    says(
        &rt,
        alloc,
        &ReadError::TooLong { limit: 9 },
        "limit input 9",
    )?;
    says(&rt, alloc, &DeclareError::DuplicateTable, "duplicate table")?;
    says(&rt, alloc, &DeclareError::TooManyTables, "too many tables")?;
    says(
        &rt,
        alloc,
        &DeclareError::TooManyRecords,
        "too many records",
    )?;
    says(
        &rt,
        alloc,
        &KeyOutOfRange { size: 9 },
        "key out of range: 9",
    )?;
    says(
        &rt,
        alloc,
        &ExpandError::TooManyEvents { limit: 9 },
        "limit events 9",
    )?;
    says(
        &rt,
        alloc,
        &ProposeError::StreamFull { slots: 9 },
        "limit slots 9",
    )?;
    says(&rt, alloc, &NetError::NetFull { limit: 9 }, "limit bytes 9")?;
    says(&rt, alloc, &NoMessage { number: 9 }, "nomessage 9")?;
    says(
        &rt,
        alloc,
        &RecoverError::NotYet { have: 1, need: 2 },
        "promises 1 of 2",
    )?;
    says(&rt, alloc, &Refused::Promised { promised: 9 }, "promised 9")?;
    says(&rt, alloc, &Refused::OtherBallot { ballot: 9 }, "ballot 9")?;
    says(&rt, alloc, &Refused::OutOfOrder { len: 9 }, "order 9")?;
    let stamp = Stamp { epoch: 1, seq: 2 };
    says(
        &rt,
        alloc,
        &ExtendError::Order {
            last: stamp,
            got: stamp,
        },
        "order",
    )
}

#[test]
fn an_error_without_memory_says_so(rt: HostRuntime) -> Result<(), Fail> {
    let alloc = rt.alloc();
    says(&rt, alloc, &ReadError::Memory, "memory")?;
    says(&rt, alloc, &DeclareError::Memory, "memory")?;
    says(&rt, alloc, &ExpandError::Memory, "memory")?;
    says(&rt, alloc, &ParseError::Memory, "memory")?;
    says(&rt, alloc, &DecodeError::Memory, "memory")?;
    says(&rt, alloc, &ProposeError::Memory, "memory")?;
    says(&rt, alloc, &NetError::Memory, "memory")?;
    says(&rt, alloc, &RecoverError::Memory, "memory")?;
    says(&rt, alloc, &Refused::Memory, "memory")?;
    says(&rt, alloc, &ExtendError::Memory, "memory")
}

#[test]
fn a_fault_says_its_rule(rt: HostRuntime) -> Result<(), Fail> {
    let kinds = [
        (Kind::Byte, "Byte"),
        (Kind::Header, "Header"),
        (Kind::Word, "Word"),
        (Kind::Order, "Order"),
        (Kind::Count, "Count"),
        (Kind::Number, "Number"),
        (Kind::Range, "Range"),
        (Kind::Name, "Name"),
        (Kind::Duplicate, "Duplicate"),
        (Kind::UnknownTable, "UnknownTable"),
        (Kind::Register, "Register"),
        (Kind::Relation, "Relation"),
        (Kind::Unended, "Unended"),
    ];
    for (kind, text) in kinds {
        says(&rt, rt.alloc(), &EventFault { kind }, text)?;
    }
    let fault = ParseError::Fault {
        line: 3,
        kind: Kind::Byte,
    };
    says(&rt, rt.alloc(), &fault, "fault line 3 Byte")
}

#[test]
fn a_passed_limit_says_its_name(rt: HostRuntime) -> Result<(), Fail> {
    let names = [
        (LimitName::Nodes, "line 3: limit nodes 9"),
        (LimitName::Workers, "line 3: limit workers 9"),
        (LimitName::Tables, "line 3: limit tables 9"),
        (LimitName::Records, "line 3: limit records 9"),
        (LimitName::Requests, "line 3: limit requests 9"),
        (LimitName::Ops, "line 3: limit ops 9"),
        (LimitName::Events, "line 3: limit events 9"),
        (LimitName::Elections, "line 3: limit elections 9"),
        (LimitName::Slots, "line 3: limit slots 9"),
        (LimitName::Bytes, "line 3: limit bytes 9"),
        (LimitName::Asks, "line 3: limit asks 9"),
    ];
    for (name, text) in names {
        let passed = ParseError::Limit {
            line: 3,
            name,
            limit: 9,
        };
        says(&rt, rt.alloc(), &passed, text)?;
    }
    Ok(())
}

#[test]
fn bytes_that_encode_nothing_say_where(rt: HostRuntime) -> Result<(), Fail> {
    let kinds = [
        (Flaw::Kind, "Kind at 7"),
        (Flaw::Short, "Short at 7"),
        (Flaw::Range, "Range at 7"),
        (Flaw::Order, "Order at 7"),
        (Flaw::Extra, "Extra at 7"),
    ];
    for (kind, text) in kinds {
        says(&rt, rt.alloc(), &DecodeError::Fault { at: 7, kind }, text)?;
    }
    Ok(())
}
