//! Laws of the runs of scripts: the contract of each function is the law.

ghost use Rattle.rl_world.specs.Laws.{ScriptsMakeSetups, ExpandedRunsAreRuns};

/// The run of a script keeps the ranges and limits of a run.
pub fn scripts_make_setups()
    ensures { ScriptsMakeSetups }
{}

/// Events where each random one is written out make the world that the events themselves make.
pub fn expanded_runs_are_runs()
    ensures { ExpandedRunsAreRuns }
{}
