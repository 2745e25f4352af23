//! Epochs, which are dealt out to the nodes in turn.

ghost use Rattle.std.specs.Prelude.{◌≡◌, ℕ, ◌+◌, ◌<◌, ◌≤◌, ◌^◌, IfSome, IfNone};
ghost use Rattle.rl_base.specs.Epochs.{owner_of, next_epoch_of, IsNextEpoch};

/// The node that an epoch belongs to.
pub fn owner(epoch: u32, nodes: u32) -> u32
    requires some { 1 ≤ nodes }
    requires begun { 1 ≤ epoch }
    ensures { result ≡ owner_of epoch nodes }
{
    (epoch - 1) % nodes + 1
}

/// The least epoch of a node above the promised one, or none where it would not fit 20 bits.
pub fn next_epoch(promised: u32, node: u32, nodes: u32) -> Option<u32>
    requires first { 1 ≤ node }
    requires last { node ≤ nodes }
    ensures next { IfSome result (λ epoch. epoch ≡ next_epoch_of promised node nodes) }
    ensures least { IfSome result (λ epoch. IsNextEpoch promised node nodes epoch) }
    ensures fits { IfSome result (λ epoch. epoch < 2 ^ 20) }
    ensures past { IfNone result (2 ^ 20 ≤ next_epoch_of promised node nodes) }
    ensures none { IfNone result
        ((epoch : ℕ) → promised < epoch → owner_of epoch nodes ≡ node → 2 ^ 20 ≤ epoch) }
{
    let epoch = u64::from(promised) + u64::from(turns_between(promised, node, nodes)) + 1;
    if epoch < 1 << 20 {
        Some(epoch as u32)
    } else {
        None
    }
}

/// How many turns lie between the epoch after the promised one and the node's next.
fn turns_between(promised: u32, node: u32, nodes: u32) -> u32
    requires first { 1 ≤ node }
    requires last { node ≤ nodes }
    ensures next { promised + 1 + result ≡ next_epoch_of promised node nodes }
    ensures least { IsNextEpoch promised node nodes (promised + 1 + result) }
{
    let turn = node - 1;
    let passed = promised % nodes;
    if turn >= passed {
        turn - passed
    } else {
        nodes - passed + turn
    }
}
