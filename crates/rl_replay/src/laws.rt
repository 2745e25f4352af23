//! Laws on replicas over a family: the contract of each function is the law.

ghost use Rattle.rl_replay.specs.Laws.{ReplicasBegin, ReplicasGoOn, PlayKeepsReplica, MemoryKeepsReplica, AppliedIdentified, RowsAtWatermark, LongerLogsBegin};

/// A replica has applied items of the history of its node's known prefixes, no two of one stamp:
/// it begins so, and stays so while the prefixes grow, at each `play` with their bound and
/// watermark, and after `Memory`. Where it has applied the whole history, its rows are those after
/// the history.
pub fn replicas_follow()
    ensures begin { ReplicasBegin }
    ensures go_on { ReplicasGoOn }
    ensures play { PlayKeepsReplica }
    ensures memory { MemoryKeepsReplica }
    ensures identified { AppliedIdentified }
    ensures rows { RowsAtWatermark }
{}

/// Where a log begins with what a replica has played of a stream, so does every longer one, so that
/// a replica goes on after its logs grew.
pub fn logs_grow()
    ensures { LongerLogsBegin }
{}
