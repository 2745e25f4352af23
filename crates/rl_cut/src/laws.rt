//! Laws on the histories of all families: the contract of each function is the law.

ghost use Rattle.rl_families.specs.Laws.{HistoriesNest, WatermarkCuts, HistoriesGoOn};

use rl_families::laws;

/// Where each log of a family is a prefix of a log of a larger one, along whose logs the stamps
/// rise, the history of the family is a prefix of that of the larger one: its items up to the
/// family's watermark.
pub fn monotone()
    ensures nest { HistoriesNest }
    ensures cut { WatermarkCuts }
{
    laws::monotone();
}

/// Where each log of a family is a prefix of some leader's log, the history of the family is empty,
/// or it is the opening list of an epoch and then what that epoch's leader decided, as far as every
/// log has come.
pub fn histories_go_on()
    ensures { HistoriesGoOn }
{
    laws::histories_go_on();
}
