//! Why a text is no report.

ghost use Rattle.std.specs.Prelude.{◌≡◌};
ghost use Rattle.rl_report.specs.Answers.{lines_error};
ghost use Rattle.rl_report.specs.Read.{fault_at, numbered_fault};
ghost use Rattle.rl_report.specs.Words.{lines_in};

use crate::line_words::count_lines;
use rl_base::memory::Memory;
use std::alloc::{AllocError, AllocFailed};
use thiserror::Error;

/// What is wrong with a line.
#[derive(Clone, Copy, Debug, PartialEq, Eq)]
pub enum ReportFault {
    /// The first line is no title.
    Title,
    /// A line can't stand here, a number is none or too large, or nodes are not numbered from 1.
    Form,
    /// Another line where the line of an item is due, or the line of an item too many.
    Count,
    /// The text ends where a line is due, or its last line is not ended.
    End,
}

/// Why a text was not read.
#[derive(Clone, Copy, Debug, PartialEq, Eq, Error)]
pub enum ReportError {
    /// The first line with which something is wrong, counted from 1.
    #[error("fault line {line} {kind:?}")]
    Fault { line: u32, kind: ReportFault },
    /// There was no memory left.
    #[error("memory")]
    Memory,
}

/// The first fault of some lines: how many were left there, and what it is.
#[derive(Clone, Copy, Debug, PartialEq, Eq)]
pub struct Fault {
    pub left: usize,
    pub kind: ReportFault,
}

/// Why a line was not read.
#[derive(Clone, Copy, Debug, PartialEq, Eq)]
pub enum LineError {
    /// Something is wrong with it.
    Fault(ReportFault),
    /// There was no memory left.
    Memory,
}

/// Why lines were not read.
#[derive(Clone, Copy, Debug, PartialEq, Eq)]
pub enum LinesError {
    /// Something is wrong with one of them.
    Fault(Fault),
    /// There was no memory left.
    Memory,
}

impl From<ReportFault> for LineError {
    ghost use Rattle.std.specs.Prelude.{◌≡◌};
    ghost use Rattle.rl_report.specs.declared.fault.LineError.TheVariants as errors;

    ghost from_gives = { λ kind e. e ≡ errors.Fault kind };

    fn from(kind: ReportFault) -> LineError {
        LineError::Fault(kind)
    }
}

impl From<Memory> for LineError {
    ghost use Rattle.std.specs.Prelude.{◌≡◌};
    ghost use Rattle.rl_report.specs.declared.fault.LineError.TheVariants as errors;

    ghost from_gives = { λ _ e. e ≡ errors.Memory };

    fn from(_e: Memory) -> LineError {
        LineError::Memory
    }
}

impl From<AllocError> for LineError {
    ghost use Rattle.std.specs.Prelude.{◌≡◌};
    ghost use Rattle.rl_report.specs.declared.fault.LineError.TheVariants as errors;

    ghost from_gives = { λ _ e. e ≡ errors.Memory };

    fn from(_e: AllocError) -> LineError {
        LineError::Memory
    }
}

impl<T: Drop> From<AllocFailed<T>> for LineError {
    ghost use Rattle.std.specs.Prelude.{◌≡◌};
    ghost use Rattle.rl_report.specs.declared.fault.LineError.TheVariants as errors;

    ghost from_gives = { λ _ e. e ≡ errors.Memory };

    fn from(_e: AllocFailed<T>) -> LineError {
        LineError::Memory
    }
}

impl From<Memory> for LinesError {
    ghost use Rattle.std.specs.Prelude.{◌≡◌};
    ghost use Rattle.rl_report.specs.declared.fault.LinesError.TheVariants as errors;

    ghost from_gives = { λ _ e. e ≡ errors.Memory };

    fn from(_e: Memory) -> LinesError {
        LinesError::Memory
    }
}

impl From<AllocError> for LinesError {
    ghost use Rattle.std.specs.Prelude.{◌≡◌};
    ghost use Rattle.rl_report.specs.declared.fault.LinesError.TheVariants as errors;

    ghost from_gives = { λ _ e. e ≡ errors.Memory };

    fn from(_e: AllocError) -> LinesError {
        LinesError::Memory
    }
}

impl LineError {
    /// The error of a text whose first line has this one.
    pub fn at(self, text: &[u8]) -> LinesError
        ensures { result ≡ lines_error (lines_in text.now) self }
    {
        match self {
            LineError::Fault(kind) => LinesError::fault(text, kind),
            LineError::Memory => LinesError::Memory,
        }
    }
}

impl LinesError {
    /// Something is wrong with the first line of a text, or one is due where it has none.
    pub fn fault(text: &[u8], kind: ReportFault) -> LinesError
        ensures { result ≡ LinesError.Fault (fault_at (lines_in text.now) kind) }
    {
        LinesError::Fault(Fault {
            left: count_lines(text),
            kind,
        })
    }
}
