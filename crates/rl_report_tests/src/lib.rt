//! Tests of reports: texts that are read and printed again, what is reported of items and rows, and verdicts.
#![tactic(auto)]

#[cfg(test)]
mod lines;
#[cfg(test)]
mod texts;
#[cfg(test)]
mod verdicts;
