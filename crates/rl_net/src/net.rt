//! A network that keeps every message that was sent.

ghost use Rattle.std.specs.Prelude.{◌≡◌, ◌+◌, ◌-◌, ◌<◌, ◌≤◌, ℕ, true, [], ◌∷◌, ◌++◌, length, ⊤, None, OnOk, OnErr, IfOk, IfErr, IfSome, IfNone, IsSome, IsErrOf, ◌↔◌};
ghost use Rattle.rl_net.specs.Messages.{new_message, message_at, delivered_at, dropped_at, is_pending, NonePending, bytes_sent};

use crate::message::Message;
use crate::net_error::{NetError, NoMessage};
use rl_base::limit::BYTES;
use rl_base::list::Bytes;
use std::alloc::Global;
use std::collections::BTreeSet;
use std::marker::Model;

/// The messages, numbered from 1 in the order in which they were sent. Contracts see the list of
/// them.
#[derive(Drop)]
pub struct Net {
    messages: Vec<Message>,
    // How many bytes all messages have.
    bytes: u32,
    // The numbers of those that were never delivered nor discarded.
    pending: BTreeSet<u64>,
}

impl Model for Net {
    ghost use Rattle.std.specs.Prelude.{List};
    ghost use Rattle.rl_net.specs.declared.message.Message.{Message};
    ghost use Rattle.rl_net.specs.Kept.{IsKept};

    ghost Value = { List Message };

    ghost view = { λ n. n.messages.items };

    ghost invariant = { λ n. IsKept n.messages.items n.bytes n.pending };
}

impl Net {
    ghost use Rattle.std.specs.Borrow.{sem, follows_so};
    ghost use mathlib.Core.Option.{none};
    ghost use Rattle.rl_net.specs.contracts.net.Net.{the_row};

    /// A network to which nothing was sent.
    pub fn new(alloc: Global) -> Net
        ensures { result ≡ [] }
    {
        Net {
            messages: Vec::new(alloc),
            bytes: 0,
            pending: BTreeSet::new(alloc),
        }
    }

    /// Sends bytes to a node, and answers the number of the message.
    ///
    /// `NetFull` comes exactly where the bytes of all messages would be more than the limit. After
    /// it and after `Memory` the network is unchanged.
    pub fn send(&mut self, to: u32, bytes: Bytes) -> Result<u64, NetError>
        ensures sent { OnOk result (self.new ≡ self.old ++ new_message to bytes ∷ []) }
        ensures number { IfOk result (λ number. number ≡ length self.new) }
        ensures full { IsErrOf result (NetError.NetFull BYTES) ↔ (BYTES < bytes_sent self.old + length bytes) }
        ensures the_limit { (n : ℕ) → IsErrOf result (NetError.NetFull n) → n ≡ BYTES }
        ensures unchanged { OnErr result (self.new ≡ self.old) }
    {
        let size = bytes.len();
        if size > (BYTES - self.bytes) as usize {
            return Err(NetError::NetFull { limit: BYTES });
        }
        let number = self.messages.len() as u64 + 1;
        self.messages.reserve(1)?;
        self.pending.insert(number)?;
        self.messages.push_reserved(Message {
            to,
            bytes,
            delivered: false,
            dropped: false,
        });
        self.bytes += size as u32;
        Ok(number)
    }

    /// Delivers a message: lends its bytes, with the node that it goes to. It may be delivered
    /// again, and also after it was discarded.
    ///
    /// `NoMessage` comes exactly where no message of this number was sent.
    pub fn deliver(&mut self, number: u64) -> Result<(u32, &Bytes), NoMessage>
        ensures* marked { sem 𝓛 (follows_so the_row the_row self.entry.ghost_name none (λ _ _. ⊤) (λ net. net ≡ delivered_at self.old number)) }
        ensures message { IfOk result (λ sent. IfSome (message_at self.old number) (λ m. (m.to ≡ sent.0) × (m.bytes ≡ sent.1.now))) }
        ensures was_sent { OnOk result (IsSome (message_at self.old number)) }
        ensures not_sent { IfErr result (λ e. (e.number ≡ number) × (message_at self.old number ≡ None)) }
    {
        let i = self.index_of(number)?;
        self.mark_delivered(i);
        Ok(self.lend(i))
    }

    /// Discards a message: it is pending no more. It may be delivered still.
    ///
    /// `NoMessage` comes exactly where no message of this number was sent.
    pub fn discard(&mut self, number: u64) -> Result<(), NoMessage>
        ensures dropped { self.new ≡ dropped_at self.old number }
        ensures was_sent { OnOk result (IsSome (message_at self.old number)) }
        ensures not_sent { IfErr result (λ e. (e.number ≡ number) × (message_at self.old number ≡ None)) }
    {
        let i = self.index_of(number)?;
        self.messages[i].dropped = true;
        self.pending.remove(&number);
        Ok(())
    }

    /// The least number above `after` and at most `upto` of a message that was never delivered nor
    /// discarded, or `None` exactly where there is none.
    pub fn next_pending(&self, after: u64, upto: u64) -> Option<u64>
        ensures pending { IfSome result (λ number. is_pending self.now number ≡ true) }
        ensures in_range { IfSome result (λ number. (after < number) × (number ≤ upto)) }
        ensures least { IfSome result (λ number. NonePending self.now after (number - 1)) }
        ensures none { IfNone result (NonePending self.now after upto) }
    {
        if after >= upto {
            return None;
        }
        self.pending.range(after + 1..=upto).next().copied()
    }

    /// The index of the message of a number.
    fn index_of(&self, number: u64) -> Result<usize, NoMessage>
        ensures index { IfOk result (λ i. (number ≡ i + 1) × (i < length self.now)) }
        ensures not_sent { IfErr result (λ e. (e.number ≡ number) × (message_at self.now number ≡ None)) }
    {
        if number == 0 || number > self.messages.len() as u64 {
            return Err(NoMessage { number });
        }
        Ok((number - 1) as usize)
    }

    /// Notes that a message was delivered.
    fn mark_delivered(&mut self, i: usize)
        requires { i < length self.old }
        ensures { self.new ≡ delivered_at self.old (i + 1) }
    {
        self.messages[i].delivered = true;
        self.pending.remove(&(i as u64 + 1));
    }

    /// The node that a message goes to, and its bytes.
    fn lend(&self, i: usize) -> (u32, &Bytes)
        requires { i < length self.now }
        ensures { IfSome (message_at self.now (i + 1)) (λ m. (m.to ≡ result.0) × (m.bytes ≡ result.1.now)) }
    {
        let message = &self.messages[i];
        (message.to, &message.bytes)
    }
}
