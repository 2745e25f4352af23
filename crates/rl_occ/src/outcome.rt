//! What an attempt comes to.

ghost use Rattle.std.specs.Prelude.{◌≡◌, ◌<◌, length};
ghost use Rattle.rl_store.specs.Views.{rested};
ghost use Rattle.rl_occ.specs.Outcomes.{HoldsOf, IsStopped};

use crate::release::release;
use crate::sets::Lock;
use rl_base::refusal::Refusal;
use rl_base::stamp::Stamp;
use rl_store::pass::Pass;
use rl_store::store::Store;
use rl_txn::write::{Reply, Writes};
use smallvec::SmallVec;
use std::marker::Model;
use thiserror::Error;

/// What a decided attempt has done, under its stamp.
#[derive(Debug, Drop)]
pub struct Decided {
    pub stamp: Stamp,
    pub reply: Reply,
    pub writes: Writes,
}

/// Why an attempt was not decided.
#[derive(Clone, Copy, Debug, PartialEq, Eq, Error)]
pub enum CommitError {
    /// A true conflict on one record.
    #[error("refused")]
    Refused(Refusal),
    /// The pass had no try left.
    #[error("tries spent")]
    TriesSpent,
    /// The seq that was drawn is above the limit.
    #[error("above {seq}")]
    Above { seq: u64 },
}

/// The pass after a commit with a limit.
#[derive(Drop)]
pub enum Halt {
    /// The pass is at rest.
    Free(Pass),
    /// The attempt has given up, and still holds records.
    Held(Halted),
}

/// A pass whose attempt drew a seq above the limit, and holds records. Contracts see the pass.
#[derive(Drop)]
pub struct Halted {
    pass: Pass,
    locks: SmallVec<Lock, 8>,
}

impl Model for Halted {
    ghost use Rattle.rl_store.specs.Passes.{PassOf};
    ghost use Rattle.rl_occ.specs.Outcomes.{IsStopped};

    ghost Value = { PassOf };

    ghost view = { λ h. h.pass };

    ghost invariant = { λ h. IsStopped h.pass.view h.locks.items };
}

impl Halted {
    /// Lets all records go, each under its old word: the pass is then at rest.
    pub fn rest(self, store: &Store) -> Pass
        requires table { self.table ≡ store.now.table }
        requires store { HoldsOf store.now.made self.view }
        ensures table { result.table ≡ self.table }
        ensures rested { result.view ≡ rested self.view }
    {
        let Halted { mut pass, locks } = self;
        release(store, &mut pass, locks.as_slice());
        pass
    }

    /// A pass that has given up.
    pub(crate) fn of(pass: Pass, locks: SmallVec<Lock, 8>) -> Halted
        requires { IsStopped pass.view locks.items }
        ensures { result ≡ pass }
    {
        Halted { pass, locks }
    }
}
