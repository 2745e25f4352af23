//! Laws of the rule alone.

ghost use Rattle.rl_store.specs.Laws.{RuleIsSerial};

/// Between any two steps, in every schedule, the items and decided attempts of all passes are serial in the order of
/// their stamps: each read is of the newest version below, and has its row.
pub fn store_serial()
    ensures { RuleIsSerial }
{}
