//! What holds of all workers of an open leader together.

ghost use Rattle.rl_worker.specs.Laws.{DecidesSerially, ItemsFollowOn, CausesAreTrue, StampsRise, StampsStayBelow, SettledStays};
ghost use Rattle.rl_worker.specs.Laws.{StepsAreOne, StepsTellNews, StampsStayInRange, ItemsStayInRange, ItemsEndInOrder, OpenItemsAreInstalled};
ghost use Rattle.rl_worker.specs.Laws.{EachRecordOpens, OpeningStampsAreEarly, FittingWritesAreThere};

/// The law of the core, for every list of steps and idle draws of all workers, from records with
/// stamps of earlier epochs: what is decided is serial by stamp, each worker's items follow on
/// from its first request, each refusal has a true cause, and each worker's stamps rise: what it made is below
/// the next stamp, and below one that it has drawn and not decided.
///
/// Where every stamp up to some one is decided or refused, no item up to it is decided later.
pub fn core_serial()
    ensures serial { DecidesSerially }
    ensures follow_on { ItemsFollowOn }
    ensures causes { CausesAreTrue }
    ensures rising { StampsRise }
    ensures below { StampsStayBelow }
    ensures settled { SettledStays }
{}

/// One step of a worker adds the same item or none to what is decided and to what was made, an item
/// or none to what has ended, and a refusal or none; it draws at most one stamp, and changes no other
/// worker. What ended and was refused in it is what `Worker::step` tells.
pub fn one_step()
    ensures one { StepsAreOne }
    ensures tells { StepsTellNews }
{}

/// After any steps and idle draws the stamps are in the range of their epoch: from that of seq 2 up to
/// the next, which is at most that of the end mark. What is decided was made, and as it is seen it is
/// in the range of its batch. Each worker's decided items, by stamp, are those that have ended, in the
/// order in which they did, and then the one that it installs.
pub fn ranges()
    ensures in_range { StampsStayInRange }
    ensures items { ItemsStayInRange }
    ensures end_in_order { ItemsEndInOrder }
{}

/// The decided item of a worker's attempt that has not ended is the item that the worker installs in
/// the core, as it is seen; elsewhere there is none.
pub fn open_items()
    ensures { OpenItemsAreInstalled }
{}

/// The stamps with which an epoch opens: one for each record, and below any that all items of the
/// opening list are below. The records that such items write are there where they fit the tables.
pub fn opening_stamps()
    ensures each { EachRecordOpens }
    ensures early { OpeningStampsAreEarly }
    ensures there { FittingWritesAreThere }
{}
