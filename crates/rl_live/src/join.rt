//! All workers, joined.

ghost use Rattle.std.specs.Prelude.{◌≡◌, ℕ, ◌<◌, [], length, replicate, OnOk, IfOk};
ghost use Rattle.atomic_table.specs.Seated.{TableId};
ghost use Rattle.rl_store.specs.Views.{IsAtRest};
ghost use Rattle.rl_live.specs.Handing.{AllFrom, IsEndAs, IsJoined};
ghost use Rattle.rl_live.specs.Spreading.{spread};

use crate::run::Acceptors;
use crate::worker::Done;
use rl_base::list::Seq;
use rl_base::memory::Memory;
use rl_script::script::Script;
use rl_store::pass::Pass;
use rl_store::store::Store;
use std::alloc::Global;

/// For each node its acceptors.
pub type Nodes = Seq<Acceptors>;

/// The pass takes in what each worker's pass has, and each node gets its acceptors, in the order of
/// the workers.
pub(crate) fn join_all(
    alloc: Global,
    script: &Script,
    store: &Store,
    pass: Pass,
    results: Vec<Result<Done, Memory>>,
) -> Result<(Pass, Nodes), Memory>
    requires own { pass.table ≡ store.now.table }
    requires rest { IsAtRest pass.view }
    requires many { length results.items ≡ length script.now.lists }
    requires ended { (progress : TableId) × (tries : ℕ) × AllFrom (IsEndAs script.now store.now progress tries) 1 results.items }
    ensures { IfOk result (λ joined. (progress : TableId) (tries : ℕ) → AllFrom (IsEndAs script.now store.now progress tries) 1 results.items
        → IsJoined script.now store.now progress tries (length results.items) pass joined.0 joined.1) }
{
    let mut pass = pass;
    let mut nodes = no_nodes(alloc, script.nodes)?;
    for result in results {
        let done = result?;
        let Done {
            pass: other,
            acceptors,
        } = done;
        pass.join(store, other);
        spread(&mut nodes, acceptors)?;
    }
    Ok((pass, nodes))
}

/// So many nodes without acceptors.
fn no_nodes(alloc: Global, count: u32) -> Result<Nodes, Memory>
    ensures { IfOk result (λ nodes. nodes ≡ replicate count []) }
{
    let mut nodes = Nodes::new(alloc);
    for _node in 0..count {
        nodes.push(Acceptors::new(alloc))?;
    }
    Ok(nodes)
}

/// Each node gets one of the acceptors.
fn spread(nodes: &mut Nodes, acceptors: Acceptors) -> Result<(), Memory>
    requires { length acceptors ≡ length nodes.old }
    ensures { OnOk result (nodes.new ≡ spread nodes.old acceptors) }
{
    let mut at = 0;
    for acceptor in acceptors.into_vec() {
        nodes.push_at(at, acceptor)?;
        at += 1;
    }
    Ok(())
}
