//! Laws of every run: the contract of each function is the law.

ghost use Rattle.rl_nodes.specs.Laws.{EveryRunIsSafe};
ghost use Rattle.rl_safe.specs.Elections.{LogsHaveWhatIsProposed, LogsHaveAllUpToTheLast, EpochsDecide, EpochsSettle, ReleasedIsNeverCut};
ghost use Rattle.rl_safe.specs.Elections.{ItemsAreOfOpenedEpochs, OpeningListsStand, LaterLogsBeginOpeningLists};
ghost use Rattle.rl_safe.specs.Laws.{RunsAreLed, LedRunsAreSafe, GainsSuffice, SeqsAreFew};
ghost use Rattle.rl_safe.specs.Messages.{MessagesAreInRange, MessagesReadBack, MessagesHaveReceivers, NoMessageIsBad};
ghost use Rattle.rl_safe.specs.Runs.{SomeRunReleases};

use rl_batch::laws as batches;
use rl_election::laws as streams;
use rl_msg::laws as messages;
use rl_txn::laws as transactions;
use rl_worker::laws as workers;

/// Every run is safe: the released transactions in the order of their stamps are a prefix of one serial history, which each
/// node's known history and each opening list begin too; a replica at its watermark has the rows that its known history
/// leaves; each opening list has all that leaders of earlier epochs release; and each refused attempt has a true cause.
pub fn every_run_is_safe()
    ensures { EveryRunIsSafe }
{
    runs_are_led();
    led_runs_are_safe();
}

/// The logs of a run's leaders are as the laws of families ask.
pub fn runs_are_led()
    ensures { RunsAreLed }
{
    batches::reads_back();
    batches::short();
    streams::leader_logs();
    transactions::rows();
    transactions::words();
    workers::core_serial();
    workers::one_step();
    workers::ranges();
    workers::opening_stamps();
}

/// Where the logs of each run's leaders are as the laws of families ask, every run is safe.
pub fn led_runs_are_safe()
    ensures { LedRunsAreSafe }
{}

/// There is a run that releases items of two epochs: so what every run is promised is not promised of none.
pub fn something_happens()
    ensures { SomeRunReleases }
{}

/// What an epoch has in a log that a node keeps, that a leader has or that is chosen is nothing, or its open mark and a prefix of
/// what its leader proposed on that stream; and all that the leader decided there up to the last seq.
pub fn logs_have_what_leaders_propose()
    ensures proposed { LogsHaveWhatIsProposed }
    ensures all { LogsHaveAllUpToTheLast }
{}

/// The items of an epoch in the history of the chosen logs are all that its leader decided up to the least last seq.
pub fn epochs_decide()
    ensures { EpochsDecide }
{}

/// Items of an epoch are in a log only where its leader has opened. An epoch opens with one list, for good; and what its leader
/// opens with or releases from begins the history of the initial logs of each later epoch.
pub fn opening_lists_stand()
    ensures before { ItemsAreOfOpenedEpochs }
    ensures one { OpeningListsStand }
    ensures later { LaterLogsBeginOpeningLists }
{
    runs_are_led();
}

/// Once each chosen log has an entry of a later epoch, the history of the chosen logs has the same items of an epoch for good;
/// and what was released is never cut.
pub fn epochs_settle()
    ensures settled { EpochsSettle }
    ensures released { ReleasedIsNeverCut }
{
    runs_are_led();
}

/// Each message that was sent in a run is in range of its encoding, so that its bytes read back as it; and its receiver is there.
pub fn messages_are_in_range()
    ensures in_range { MessagesAreInRange }
    ensures read_back { MessagesReadBack }
    ensures receivers { MessagesHaveReceivers }
{
    streams::leader_logs();
    messages::reads_back();
    runs_are_led();
}

/// No message that was sent in a run is bad at its receiver, whenever and however often it is delivered.
pub fn no_message_is_bad()
    ensures { NoMessageIsBad }
{
    streams::leader_logs();
    runs_are_led();
}

/// Where the receiver of a message releases, the items that its history gained suffice: what is above the last released item in
/// the whole history, is so among these. So a node need hand out no others.
pub fn gains_suffice()
    ensures { GainsSuffice }
{
    streams::leader_logs();
    runs_are_led();
}

/// The next seq of an open leader is at most 2 more than the events of its run count, so it stays far below the end mark's.
pub fn seqs_are_few()
    ensures { SeqsAreFew }
{
    workers::one_step();
}
