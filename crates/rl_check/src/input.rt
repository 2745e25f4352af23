//! The input of a check: a script, a line `report`, and a report.

ghost use Rattle.std.specs.Prelude.{◌≡◌, ◌<◌, ◌≤◌, ◌-◌, ◌^◌, IfNone, IfSome, length};
ghost use Rattle.std.specs.Option.{option_map};
ghost use Rattle.rl_text.specs.Text.{lines_of};
ghost use Rattle.rl_check.specs.Inputs.{script_part, report_part};

use rl_text::text::first_line;

/// The line between a script and a report.
const REPORT: &[u8] = b"report";

/// The parts of an input.
#[derive(Clone, Copy)]
pub struct Parts<'a> {
    /// What stands before the first line that is exactly `report`, or the whole input without one.
    pub script: &'a [u8],
    /// What stands behind that line.
    pub report: Option<&'a [u8]>,
    /// How many lines stand before it.
    pub lines: u32,
}

/// The parts of an input, which has fewer than 2^32 - 1 bytes.
pub fn parts_of(input: &[u8]) -> Parts
    requires { length input.now < 2 ^ 32 - 1 }
    ensures script { result.script.now ≡ script_part input.now }
    ensures report { option_map (λ report. report.now) result.report ≡ report_part input.now }
    ensures lines { IfNone result.report (result.lines ≡ length (lines_of input.now)) }
    ensures few { result.lines ≤ length input.now }
    ensures shorter { IfSome result.report (λ report. length report.now ≤ length input.now) }
{
    let mut lines = 0;
    let mut rest = input;
    'lines: while !rest.is_empty() {
        let (line, after) = first_line(rest);
        if line == REPORT {
            return Parts {
                script: input.split_at(input.len() - rest.len()).0,
                report: Some(after),
                lines,
            };
        }
        lines += 1;
        rest = after;
    }
    Parts {
        script: input,
        report: None,
        lines,
    }
}
