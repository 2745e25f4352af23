//! Laws of the workers on which what a leader keeps rests.

ghost use Rattle.rl_txn.specs.Laws.{RowsGoOnFitting};
ghost use Rattle.rl_worker.specs.Laws.{StampsRise, StampsStayBelow, StepsTellNews, StampsStayInRange, ItemsStayInRange, EachRecordOpens, OpeningStampsAreEarly, FittingWritesAreThere};

use rl_txn::laws as transactions;
use rl_worker::laws;

/// The stamps of each worker rise and stay in the range of their epoch, what is decided is in range, and each step tells
/// what ended and was refused in it.
pub fn turns()
    ensures rise { StampsRise }
    ensures below { StampsStayBelow }
    ensures in_range { StampsStayInRange }
    ensures items { ItemsStayInRange }
    ensures tells { StepsTellNews }
{
    laws::core_serial();
    laws::ranges();
    laws::one_step();
}

/// As an epoch opens, each record has a stamp, which is of an earlier epoch, and the rows fit.
pub fn openings()
    ensures each { EachRecordOpens }
    ensures early { OpeningStampsAreEarly }
    ensures there { FittingWritesAreThere }
    ensures rows { RowsGoOnFitting }
{
    laws::opening_stamps();
    transactions::rows();
}
