//! The settings of a script.

ghost use Rattle.std.specs.Prelude.{◌≡◌, MatchResult, Some, Ok, IfOk};
ghost use Rattle.std.specs.Option.{IsSomeAnd};
ghost use Rattle.rl_text.specs.Numbers.{IsWithin};
ghost use Rattle.rl_events.specs.Words.{within};
ghost use Rattle.rl_script.specs.Answers.{Fails};
ghost use Rattle.rl_script.specs.Problems.{as_problem};
ghost use Rattle.rl_script.specs.Drafts.{SettingsFit};
ghost use Rattle.rl_script.specs.Settings.{setting_word, no_settings, nodes_of, workers_of, once, given, one_more, with_setting};

use crate::fault::LineError;
use crate::script::{MOST_STOPS, Stops};
use rl_base::limit::{NODES, WORKERS};
use rl_events::kind::Kind;
use rl_events::word::{number, within};
use std::alloc::Global;

/// Which setting a line is.
#[derive(Clone, Copy, Debug, PartialEq, Eq)]
pub enum SettingWord {
    Nodes,
    Workers,
    Batch,
    Loss,
    Seed,
    Stop,
}

/// Which setting a first word begins, if it begins one.
pub fn setting_word(word: &str) -> Option<SettingWord>
    ensures { result ≡ setting_word word.now }
{
    match word {
        "nodes" => Some(SettingWord::Nodes),
        "workers" => Some(SettingWord::Workers),
        "batch" => Some(SettingWord::Batch),
        "loss" => Some(SettingWord::Loss),
        "seed" => Some(SettingWord::Seed),
        "stop" => Some(SettingWord::Stop),
        _ => None,
    }
}

/// The settings that are given so far.
#[derive(Drop)]
pub struct Settings {
    pub nodes: Option<u32>,
    pub workers: Option<u32>,
    pub batch: Option<u32>,
    pub loss: Option<u32>,
    pub seed: Option<u64>,
    pub stops: Stops,
}

/// The value of a setting that was not given before.
fn once<T: Drop>(before: Option<T>, value: T) -> Result<Option<T>, Kind>
    ensures once { result ≡ once before value }
    ensures value { IfOk result (λ after. after ≡ Some value) }
{
    match before {
        None => Ok(Some(value)),
        Some(_) => Err(Kind::Duplicate),
    }
}

/// The value of a setting in its range, which was not given before.
fn given(low: u32, high: u32, before: Option<u32>, word: &str) -> Result<Option<u32>, Kind>
    ensures given { result ≡ given (within low high) before word.now }
    ensures within { IfOk result (λ after. IsSomeAnd after (λ n. IsWithin low high n)) }
{
    once(before, within(low, high, word)?)
}

/// One more stop joins the others.
fn push_stop(stops: &mut Stops, d: u32) -> Result<(), LineError>
    ensures { MatchResult result
        (λ _. one_more stops.old d ≡ Ok stops.new)
        (λ e. Fails e (as_problem (one_more stops.old d))) }
{
    if stops.len() == MOST_STOPS {
        return Err(Kind::Duplicate.into());
    }
    stops.push(u64::from(d))?;
    Ok(())
}

impl Settings {
    /// No setting is given yet.
    pub fn new(alloc: Global) -> Settings
        ensures settings { result ≡ no_settings }
        ensures fits { SettingsFit result }
    {
        Settings {
            nodes: None,
            workers: None,
            batch: None,
            loss: None,
            seed: None,
            stops: Stops::new(alloc),
        }
    }

    /// How many nodes there are.
    pub fn nodes(&self) -> u32
        ensures { result ≡ nodes_of self.now }
    {
        self.nodes.unwrap_or(1)
    }

    /// How many workers there are.
    pub fn workers(&self) -> u32
        ensures { result ≡ workers_of self.now }
    {
        self.workers.unwrap_or(1)
    }

    /// One more setting is given. After an error they are of no use.
    #[tactic(auto, unfolding(crate::specs::Settings::with_setting))]
    pub fn set(&mut self, word: SettingWord, value: &str) -> Result<(), LineError>
        requires fits { SettingsFit self.old }
        ensures settings { MatchResult result
            (λ _. with_setting self.old word value.now ≡ Ok self.new)
            (λ e. Fails e (as_problem (with_setting self.old word value.now))) }
        ensures fits { IfOk result (λ _. SettingsFit self.new) }
    {
        match word {
            SettingWord::Nodes => self.nodes = given(1, NODES, self.nodes, value)?,
            SettingWord::Workers => self.workers = given(1, WORKERS, self.workers, value)?,
            SettingWord::Batch => self.batch = given(1, 64, self.batch, value)?,
            SettingWord::Loss => self.loss = given(0, 999, self.loss, value)?,
            SettingWord::Seed => self.seed = once(self.seed, number(value)?)?,
            SettingWord::Stop => push_stop(&mut self.stops, within(1, 1000000, value)?)?,
        }
        Ok(())
    }
}
