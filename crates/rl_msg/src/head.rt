//! What each message begins with, behind its kind.

ghost use Rattle.std.specs.Prelude.{◌≡◌, ◌++◌, OnOk};
ghost use Rattle.rl_fields.specs.Answers.{IsRead};
ghost use Rattle.rl_msg.specs.Ranges.{HeadInRange};
ghost use Rattle.rl_msg.specs.Encoding.{head_bytes};
ghost use Rattle.rl_msg.specs.Reading.{head};

use rl_base::limit::NODES;
use rl_base::list::Bytes;
use rl_base::memory::Memory;
use rl_fields::fault::Fault;
use rl_fields::number::{u8_within, u32_within};
use rl_fields::writing::{push_u8, push_u32};

/// The greatest epoch.
pub const LAST_EPOCH: u32 = (1 << 20) - 1;

/// The greatest number of a node.
const LAST_NODE: u8 = NODES as u8;

/// Sender, receiver and epoch.
#[derive(Clone, Copy, Debug)]
pub struct Head {
    pub from: u32,
    pub to: u32,
    pub epoch: u32,
}

/// A head, and the bytes after it.
#[tactic(auto, unfolding(crate::specs::Reading::head))]
pub fn head_at(bytes: &[u8]) -> Result<(Head, &[u8]), Fault>
    ensures { IsRead (λ x. (x.0, x.1.now)) result (head bytes.now) }
{
    let (from, rest) = u8_within(1, LAST_NODE, bytes)?;
    let (to, rest) = u8_within(1, LAST_NODE, rest)?;
    let (epoch, rest) = u32_within(1, LAST_EPOCH, rest)?;
    let head = Head {
        from: u32::from(from),
        to: u32::from(to),
        epoch,
    };
    Ok((head, rest))
}

/// Appends a head.
pub fn push_head(out: &mut Bytes, head: Head) -> Result<(), Memory>
    requires { HeadInRange head.from head.to head.epoch }
    ensures { OnOk result (out.new ≡ out.old ++ head_bytes head.from head.to head.epoch) }
{
    push_u8(out, head.from as u8)?;
    push_u8(out, head.to as u8)?;
    push_u32(out, head.epoch)
}
