//! Laws of streams alone, whatever is sent, lost, sent again or delayed, and whichever nodes crash, return or are lost: the
//! contract of each function is the law.

ghost use Rattle.rl_election.specs.Laws.{LaterLogsBeginChosen, InitialLogsStand, ChosenGrows, KeptIsAdopted, NoneAtBallotZero, BallotsBelowPromise, InitialLogsHaveOrigins, LeadersBeganWithInitialLogs, LeaderLogsGrow, OwnersLead, CandidatesStandFirst, PreparesWereSent, SyncsWereSent, AcceptsWereSent, AcknowledgedIsChosen, SomeIsChosen, SomeIsLongest, LongestGrows, ProposalIsChosen, ProposalIsCarried};

/// After any list of events, what is chosen at an epoch is a prefix of the initial log of each later epoch that has one.
/// An initial log stands once it is made, so this holds when it is made and at every later moment.
pub fn agreement()
    ensures agreement { LaterLogsBeginChosen }
    ensures initial_logs_stand { InitialLogsStand }
    ensures chosen_grows { ChosenGrows }
{}

/// After any list of events, a log that a node keeps at a ballot begins with the initial log of that epoch, and is a
/// prefix of what its leader has, or last had. At ballot 0 it keeps no batch, and no ballot is above its promise.
pub fn adoption()
    ensures adopted { KeptIsAdopted }
    ensures none { NoneAtBallotZero }
    ensures below { BallotsBelowPromise }
{}

/// After any list of events, an initial log is a log that was adopted at an earlier epoch, or nothing, and then the open
/// mark. The log of a leader begins with its initial log and only grows, and a leader owns its epoch. A candidate owns
/// the epoch that it stands for, which has had no leader: so no epoch is led twice.
pub fn leader_logs()
    ensures origins { InitialLogsHaveOrigins }
    ensures began { LeadersBeganWithInitialLogs }
    ensures grow { LeaderLogsGrow }
    ensures owners { OwnersLead }
    ensures candidates { CandidatesStandFirst }
{}

/// After any list of events, what a candidate or a leader would send again was sent before: the Prepare of a candidate, a
/// leader's initial logs, and each batch behind them, to each node.
pub fn resends()
    ensures prepares { PreparesWereSent }
    ensures syncs { SyncsWereSent }
    ensures accepts { AcceptsWereSent }
{}

/// After any list of events, what a leader counts as acknowledged is a prefix of what is chosen at its epoch.
pub fn leading()
    ensures { AcknowledgedIsChosen }
{}

/// Wherever an epoch has a log, some prefix of it is what is chosen; and there is a run in which a proposal is chosen, and
/// one in which a second leader begins with it.
pub fn choices()
    ensures there { SomeIsChosen }
    ensures proposal { ProposalIsChosen }
    ensures carried { ProposalIsCarried }
{}

/// After any list of events, one chosen log of each stream is the longest: it begins with all that was ever chosen on that
/// stream, at whatever epoch, and only grows.
pub fn longest()
    ensures there { SomeIsLongest }
    ensures grows { LongestGrows }
{}
