//! The length that a quorum has acked.

ghost use Rattle.std.specs.Prelude.{◌≡◌, ◌≤◌, length};
ghost use Rattle.rl_paxos.specs.Leaders.{acked_count, IsAcknowledged};

/// How many nodes have acked a length.
fn acked_count(acked: &[u32], len: u32) -> usize
    ensures { result ≡ acked_count acked.now len }
{
    acked.iter().filter(|a| len <= **a).count()
}

/// The greatest length that a quorum has acked.
pub fn acknowledged_len(acked: &[u32], quorum: u32) -> u32
    requires some { 1 ≤ quorum }
    requires within { quorum ≤ length acked.now }
    ensures { IsAcknowledged quorum acked.now result }
{
    let mut greatest = 0;
    for len in acked {
        if *len > greatest && acked_count(acked, *len) >= quorum as usize {
            greatest = *len;
        }
    }
    greatest
}
