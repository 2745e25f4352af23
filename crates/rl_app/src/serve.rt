//! How a call of a command that reads is served.

ghost use Rattle.std.specs.Prelude.{◌≡◌, ◌<◌, ◌≤◌, ◌-◌, ◌^◌, ◌⊎◌, ℕ, List, IfOk, MatchResult, length};
ghost use Rattle.rl_app.specs.Serve.{IsAnswered, Reads, Serves, side};

use crate::answer::{Answer, Status, write_answer};
use crate::input::read_input;
use rl_base::memory::Memory;
use rl_io::sink::Sink;
use rl_io::source::Source;
use std::alloc::Global;

/// A command that answers an input.
pub trait Command {
    /// The status and the text that it answers to an input, by its value before and after.
    ghost answers: { Self → Self → List ℕ → ℕ → List ℕ → Type 0 };

    /// Answers an input.
    fn answer(&mut self, alloc: Global, input: &[u8]) -> Result<Answer, Memory>
        requires { length input.now < 2 ^ 32 - 1 }
        ensures answers { IfOk result (λ answer. answers self.old self.new input.now answer.status.code answer.text) }
        ensures answered { IfOk result (λ answer. IsAnswered answer.status.code) };
}

/// Reads the input of a command, at most `limit` bytes, and writes its answer. Nothing is written
/// before the answer is whole.
pub fn serve<C: Command, S: Source, K: Sink>(
    alloc: Global,
    command: &mut C,
    limit: u32,
    source: &mut S,
    sink: &mut K,
) -> Status
    requires { limit < 2 ^ 32 - 1 }
    ensures { Serves (C.answers command.old command.new) limit
        (side S.left S.faults source.old source.new)
        (side K.held K.faults sink.old sink.new)
        result.code }
{
    let answer = compose(alloc, command, limit, source);
    write_answer(sink, answer)
}

/// What a command answers, or the answer where its input can't be read.
fn compose<C: Command, S: Source>(
    alloc: Global,
    command: &mut C,
    limit: u32,
    source: &mut S,
) -> Result<Answer, Memory>
    requires { limit < 2 ^ 32 - 1 }
    ensures { IfOk result (λ answer. Reads (C.answers command.old command.new) limit
        (side S.left S.faults source.old source.new)
        answer.status.code answer.text) }
{
    match read_input(alloc, source, limit)? {
        Ok(input) => command.answer(alloc, input.as_slice()),
        Err(stopped) => Ok(stopped),
    }
}
