//! Tests of sessions by threads: workers that a gate holds, and small scripts whose reports are read by `check`.
#![tactic(auto)]

#[cfg(test)]
mod gates;
#[cfg(test)]
mod runs;
#[cfg(test)]
mod scripts;
