//! Laws on the histories of all families: the contract of each function is the law.

ghost use Rattle.rl_families.specs.Joining.{PrefixesJoin};
ghost use Rattle.rl_families.specs.Laws.{HistoriesNest, WatermarkCuts, HistoriesGoOn, LeadersLogsRise, HistoriesAreSerial};

/// Where each log of a family is a prefix of a log of a larger one, along whose logs the stamps
/// rise, the history of the family is a prefix of that of the larger one: its items up to the
/// family's watermark.
pub fn monotone()
    ensures nest { HistoriesNest }
    ensures cut { WatermarkCuts }
{}

/// Where each log of a family is a prefix of some leader's log, the history of the family is empty,
/// or it is the opening list of an epoch and then what that epoch's leader decided, as far as every
/// log has come.
pub fn histories_go_on()
    ensures { HistoriesGoOn }
{}

/// Along logs that are prefixes of leaders' logs the stamps rise; no two items have one stamp, and
/// each is its stream's worker's and decided in its epoch. What an epoch has in such a log is
/// nothing, or its open mark and then a prefix of what its leader proposed.
pub fn leaders_logs_rise()
    ensures { LeadersLogsRise }
{}

/// Where what each epoch decided is serial from the rows after its opening list, and follows on from
/// it, the history of prefixes of leaders' logs is serial, and each worker's items in it are its
/// requests from the first on.
pub fn histories_are_serial()
    ensures { HistoriesAreSerial }
{}

/// Of two prefixes of a list along which the stamps rise, the first, and behind it what the second has above the
/// first's last stamp, is the longer one. So a released list grows as the histories do from which it is released.
pub fn prefixes_join()
    ensures { PrefixesJoin }
{}
