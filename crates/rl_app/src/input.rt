//! What a call reads: its input, and the script that the input is.

ghost use Rattle.std.specs.Prelude.{◌≡◌, ◌≤◌, ◌<◌, ◌-◌, ◌^◌, ◌⊎◌, ℕ, Ok, IfOk, IsErrAnd, MatchResult, length};
ghost use Rattle.rl_script.specs.Fits.{ScriptFits};
ghost use Rattle.rl_script.specs.Read.{read};
ghost use Rattle.rl_app.specs.Answers.{Refuses};
ghost use Rattle.rl_app.specs.Serve.{Stops, WasRead, side};

use crate::answer::{Answer, fault_answer, limit_answer, passed_answer};
use rl_base::list::Bytes;
use rl_base::memory::Memory;
use rl_io::source::{ReadError, Source, read_all};
use rl_script::fault::ParseError;
use rl_script::script::{Script, parse};
use std::alloc::Global;

/// The whole input, or the answer where it is too long or a read failed.
pub fn read_input<S: Source>(
    alloc: Global,
    source: &mut S,
    limit: u32,
) -> Result<Result<Bytes, Answer>, Memory>
    ensures { IfOk result (λ read. MatchResult read
        (λ input. WasRead (side S.left S.faults source.old source.new) input × (length input ≤ limit))
        (λ answer. Stops limit (side S.left S.faults source.old source.new) answer.status.code answer.text)) }
{
    match read_all(alloc, source, limit as usize) {
        Ok(input) => Ok(Ok(input)),
        Err(ReadError::ReadFault) => {
            let text = String::from_str(alloc, "read fault\n")?;
            Ok(Err(Answer::line(5, text)))
        }
        Err(ReadError::TooLong { .. }) => Ok(Err(limit_answer(alloc, "input", limit)?)),
        Err(ReadError::Memory) => Err(Memory),
    }
}

/// The script that an input is, or the answer at what is wrong with it.
pub fn read_script(alloc: Global, input: &[u8]) -> Result<Result<Script, Answer>, Memory>
    requires { length input.now < 2 ^ 32 - 1 }
    ensures { IfOk result (λ said. MatchResult said
        (λ script. (read input.now ≡ Ok script) × ScriptFits script)
        (λ answer. IsErrAnd (read input.now) (λ wrong. Refuses wrong.0 wrong.1 answer.status.code answer.text))) }
{
    match parse(alloc, input) {
        Ok(script) => Ok(Ok(script)),
        Err(ParseError::Fault { line, kind }) => Ok(Err(fault_answer(alloc, line, kind)?)),
        Err(ParseError::Limit { name, limit, .. }) => Ok(Err(passed_answer(alloc, name, limit)?)),
        Err(ParseError::Memory) => Err(Memory),
    }
}
