//! The logs that a node keeps, read, and their family.

ghost use Rattle.std.specs.Prelude.{◌≡◌, ℕ, ◌-◌, ◌<◌, ◌≤◌, ◌^◌, [], List, Ok, length, slice_set, OnOk, IfOk};
ghost use Rattle.rl_txn.specs.declared.batch.Batch.{Batch};
ghost use Rattle.rl_batch.specs.Reading.{read_batch};
ghost use Rattle.rl_families.specs.Families.{AllRise};
ghost use Rattle.rl_families.specs.Logs.{stamps_along, IsRising};
ghost use Rattle.rl_families.specs.Streams.{log_at};
ghost use Rattle.rl_paxos.specs.Logs.{Log};
ghost use Rattle.rl_live.specs.Reading.{KeepsRead};
ghost use Rattle.rl_live.specs.Run.{IsReadAs};

use crate::run::Acceptors;
use rl_base::list::{Bytes, Log, Seq};
use rl_base::memory::Memory;
use rl_batch::batch_error::BatchError;
use rl_batch::decode::decode_batch;
use rl_cut::family::{ExtendError, Family};
use rl_txn::batch::{Batch, Batches};
use std::alloc::Global;

/// One log of batches for each stream.
pub type ReadLogs = Seq<Batches>;

/// The batches of each log that a node keeps.
pub(crate) fn read_logs(alloc: Global, node: &Acceptors) -> Result<ReadLogs, Memory>
    requires { (epoch : ℕ) × (logs : List Log) × (family : List (List Batch)) × KeepsRead epoch logs family node.now }
    ensures { IfOk result (λ read. (epoch : ℕ) (logs : List Log) (family : List (List Batch))
        → KeepsRead epoch logs family node.now → read ≡ family) }
{
    let mut read = ReadLogs::new(alloc);
    for acceptor in node.as_slice() {
        read.push(read_log(alloc, acceptor.log(1))?)?;
    }
    Ok(read)
}

/// The batches of a log.
fn read_log(alloc: Global, log: &Log) -> Result<Batches, Memory>
    requires { (batches : List Batch) × IsReadAs log.now batches }
    ensures { IfOk result (λ batches. IsReadAs log.now batches) }
{
    let mut batches = Batches::new(alloc);
    for bytes in log.as_slice() {
        batches.push(read_slot(alloc, bytes)?)?;
    }
    Ok(batches)
}

/// The batch at a slot.
fn read_slot(alloc: Global, bytes: &Bytes) -> Result<Batch, Memory>
    requires { (batch : Batch) × (read_batch bytes.now ≡ Ok batch) }
    ensures { IfOk result (λ batch. read_batch bytes.now ≡ Ok batch) }
{
    match decode_batch(alloc, bytes.as_slice()) {
        Ok(batch) => Ok(batch),
        Err(BatchError::Memory) => Err(Memory),
        Err(BatchError::Fault { .. }) => unreachable!(),
    }
}

/// The family of some logs, along each of which the stamps rise.
pub(crate) fn family_of(alloc: Global, logs: ReadLogs) -> Result<Family, Memory>
    requires few { length logs < 2 ^ 32 }
    requires rising { AllRise logs }
    ensures { IfOk result (λ family. family ≡ logs) }
{
    let mut family = Family::new(alloc, logs.len() as u32)?;
    let mut stream = 0;
    for log in logs.into_vec() {
        stream += 1;
        extend(&mut family, stream, log)?;
    }
    Ok(family)
}

/// Appends all batches of a log to a stream that has none.
fn extend(family: &mut Family, stream: u32, log: Batches) -> Result<(), Memory>
    requires first { 1 ≤ stream }
    requires last { stream ≤ length family.old }
    requires empty { log_at family.old stream ≡ [] }
    requires rising { IsRising (stamps_along log) }
    ensures { OnOk result (family.new ≡ slice_set family.old (stream - 1) log) }
{
    for batch in log.into_vec() {
        match family.extend(stream, batch) {
            Ok(()) => {}
            Err(ExtendError::Memory) => return Err(Memory),
            Err(ExtendError::Order { .. }) => unreachable!(),
        }
    }
    Ok(())
}
