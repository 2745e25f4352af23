//! The limits of scripts and runs.

/// What is counted, and may not pass its limit.
#[derive(Clone, Copy, Debug, PartialEq, Eq)]
pub enum LimitName {
    Nodes,
    Workers,
    Tables,
    Records,
    Requests,
    Ops,
    Events,
    Elections,
    Slots,
    Bytes,
    Asks,
}

/// The most nodes.
pub const NODES: u32 = 7;

/// The most workers, each with a list of requests and a stream.
pub const WORKERS: u32 = 16;

/// The most tables.
pub const TABLES: u32 = 16;

/// The most records of all tables together.
pub const RECORDS: u32 = 65536;

/// The most requests of all lists together.
pub const REQUESTS: u32 = 8192;

/// The most ops of a transaction.
pub const OPS: u32 = 64;

/// The most events of a script, each counted as often as it stands for one.
pub const EVENTS: u32 = 100000;

/// The most elections of a script.
pub const ELECTIONS: u32 = 64;

/// The most batches of a stream's log.
pub const SLOTS: u32 = 4096;

/// The most bytes of all messages together.
pub const BYTES: u32 = 268435456;

/// The most bytes of a script, as an input of its own or as a part of one.
pub const SCRIPT: u32 = 4194304;

/// The most bytes of a script with a report.
pub const CHECKED: u32 = 67108864;

/// The most requests of a generated script.
pub const GENERATED: u32 = 2000;

/// The most that a run of threads takes: its longest list and two, as often as it has epochs.
pub const LIVE: u32 = 4096;
