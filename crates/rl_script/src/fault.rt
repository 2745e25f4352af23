//! Why a script is refused.

ghost use Rattle.std.specs.Prelude.{◌≡◌};
ghost use Rattle.rl_script.specs.Answers.{error_at};
ghost use Rattle.rl_script.specs.LimitNames.{limit_name};

use rl_base::limit::LimitName;
use rl_base::memory::Memory;
use rl_events::kind::Kind;
use std::alloc::{AllocError, AllocFailed};
use thiserror::Error;

/// What is wrong with a line.
#[derive(Clone, Copy, Debug, PartialEq, Eq)]
pub enum Problem {
    /// It breaks a rule.
    Fault(Kind),
    /// It passes a limit.
    Limit { name: LimitName, limit: u32 },
}

/// Why a line was not read.
#[derive(Clone, Copy, Debug, PartialEq, Eq)]
pub enum LineError {
    /// Something is wrong with it.
    Problem(Problem),
    /// There was no memory left.
    Memory,
}

impl From<Problem> for LineError {
    ghost use Rattle.std.specs.Prelude.{◌≡◌};
    ghost use Rattle.rl_script.specs.declared.fault.LineError.TheVariants as errors;

    ghost from_gives = { λ problem e. e ≡ errors.Problem problem };

    fn from(problem: Problem) -> LineError {
        LineError::Problem(problem)
    }
}

impl From<Kind> for LineError {
    ghost use Rattle.std.specs.Prelude.{◌≡◌};
    ghost use Rattle.rl_script.specs.declared.fault.Problem.TheVariants.{Fault};
    ghost use Rattle.rl_script.specs.declared.fault.LineError.TheVariants as errors;

    ghost from_gives = { λ kind e. e ≡ errors.Problem (Fault kind) };

    fn from(kind: Kind) -> LineError {
        LineError::Problem(Problem::Fault(kind))
    }
}

impl From<Memory> for LineError {
    ghost use Rattle.std.specs.Prelude.{◌≡◌};
    ghost use Rattle.rl_script.specs.declared.fault.LineError.TheVariants.{Memory};

    ghost from_gives = { λ _ e. e ≡ Memory };

    fn from(_e: Memory) -> LineError {
        LineError::Memory
    }
}

impl From<AllocError> for LineError {
    ghost use Rattle.std.specs.Prelude.{◌≡◌};
    ghost use Rattle.rl_script.specs.declared.fault.LineError.TheVariants.{Memory};

    ghost from_gives = { λ _ e. e ≡ Memory };

    fn from(_e: AllocError) -> LineError {
        LineError::Memory
    }
}

impl<T: Drop> From<AllocFailed<T>> for LineError {
    ghost use Rattle.std.specs.Prelude.{◌≡◌};
    ghost use Rattle.rl_script.specs.declared.fault.LineError.TheVariants.{Memory};

    ghost from_gives = { λ _ e. e ≡ Memory };

    fn from(_e: AllocFailed<T>) -> LineError {
        LineError::Memory
    }
}

/// Why a script was not read.
#[derive(Clone, Copy, Debug, PartialEq, Eq, Error)]
pub enum ParseError {
    /// The first line with which something is wrong breaks a rule.
    #[error("fault line {line} {kind:?}")]
    Fault {
        line: u32,
        kind: Kind,
    },
    /// The first line with which something is wrong passes a limit.
    #[error("line {line}: limit {word} {limit}", word = name_of_limit(*.name))]
    Limit {
        line: u32,
        name: LimitName,
        limit: u32,
    },
    /// There was no memory left.
    #[error("memory")]
    Memory,
}

impl From<Memory> for ParseError {
    ghost use Rattle.std.specs.Prelude.{◌≡◌};
    ghost use Rattle.rl_script.specs.declared.fault.ParseError.TheVariants.{Memory};

    ghost from_gives = { λ _ e. e ≡ Memory };

    fn from(_e: Memory) -> ParseError {
        ParseError::Memory
    }
}

impl From<AllocError> for ParseError {
    ghost use Rattle.std.specs.Prelude.{◌≡◌};
    ghost use Rattle.rl_script.specs.declared.fault.ParseError.TheVariants.{Memory};

    ghost from_gives = { λ _ e. e ≡ Memory };

    fn from(_e: AllocError) -> ParseError {
        ParseError::Memory
    }
}

impl LineError {
    /// A line passes a limit.
    pub fn limit(name: LimitName, limit: u32) -> LineError
        ensures { result ≡ LineError.Problem (Problem.Limit name limit) }
    {
        LineError::Problem(Problem::Limit { name, limit })
    }

    /// The error of a text whose line of a number has this one.
    pub fn at(self, line: u32) -> ParseError
        ensures { result ≡ error_at line self }
    {
        match self {
            LineError::Problem(Problem::Fault(kind)) => ParseError::Fault { line, kind },
            LineError::Problem(Problem::Limit { name, limit }) => {
                ParseError::Limit { line, name, limit }
            }
            LineError::Memory => ParseError::Memory,
        }
    }
}

/// The name of a limit of the language, as it is printed.
pub fn name_of_limit(name: LimitName) -> &'static str
    ensures { result.now ≡ limit_name name }
{
    match name {
        LimitName::Nodes => "nodes",
        LimitName::Workers => "workers",
        LimitName::Tables => "tables",
        LimitName::Records => "records",
        LimitName::Requests => "requests",
        LimitName::Ops => "ops",
        LimitName::Events => "events",
        LimitName::Elections => "elections",
        LimitName::Slots => "slots",
        LimitName::Bytes => "bytes",
        LimitName::Asks => "asks",
    }
}
