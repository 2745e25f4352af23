//! Laws of what workers decide.

ghost use Rattle.rl_live.specs.Laws.{DecidedItemsAreSerial, EndedWorkersHaveServed, SomeRunIsRight};

/// Of a store that was closed with a pass which has all items: by rising stamp each item is what its request does after
/// those before it, and the store ends with the rows and the stamps after all of them.
pub fn decided_items_are_serial()
    ensures { DecidedItemsAreSerial }
{}

/// Of workers that have done all of their requests, each with its log and its pass, and a store that was closed with all
/// passes joined: the history of the logs is serial, has each request once and each list's in order, and the store ends
/// as after it.
pub fn ended_workers_have_served()
    ensures { EndedWorkersHaveServed }
{}

/// A run with an item that is right: what is said of runs can be met.
pub fn some_run_is_right()
    ensures { SomeRunIsRight }
{}
