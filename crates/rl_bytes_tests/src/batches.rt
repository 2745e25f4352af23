//! Worked batches, and the faults of bytes that are none.

use rl_base::flaw::Flaw;
use rl_base::stamp::Stamp;
use rl_batch::batch_error::BatchError;
use rl_batch::decode::decode_batch;
use rl_batch::encode::encode_batch;
use rl_txn::batch::Batch;
use std::alloc::Global;
use std::process::Abort;
use std::test::Fail;

/// The mark (1, 3) of an idle worker.
const IDLE: [u8; 13] = [2, 0, 0, 0, 1, 0, 0, 0, 0, 0, 0, 0, 3];

/// One item of epoch 1 and worker 1, with seq 2 and index 1: it is done, and writes 5 at key 0 of table 0.
const ONE_WRITE: [u8; 36] = [
    1, 1, 0, 0, 0, 1, 1, 0, 0, 0, 0, 0, 0, 0, 2, 0, 0, 0, 1, 0, 0, 1, 0, 0, 0, 0, 0, 1, 0, 0, 0, 0,
    0, 0, 0, 5,
];

/// Two items of epoch 7 and worker 3: one is done, with two outs, a row of two columns and an absent one; the other was
/// declined by its op 64.
const TWO_ITEMS: [u8; 81] = [
    1, 2, 0, 0, 0, 7, 3, // two items of epoch 7 and worker 3
    0, 0, 0, 0, 0, 0, 0, 2, 0, 0, 0, 12, 0, // seq 2, index 12, done
    2, 0, 0, 0, 0, 0, 0, 0, 9, 0, 0, 0, 0, 0, 0, 0, 0, // outs
    2, 0, 0, 0, 255, 255, 2, 0, 0, 0, 0, 0, 0, 0, 1, 255, 255, 255, 255, 255, 255, 255, 255, // a row
    15, 0, 0, 0, 0, 0, // an absent row
    0, 0, 0, 255, 255, 255, 255, 254, 0, 0, 32, 0, 64, 0, 0, // seq 2^40 - 2, index 8192, declined by op 64
];

/// Checks the fault of some bytes.
fn check_fault(rt: &impl Abort, alloc: Global, x: &[u8], at: u64, kind: Flaw) {
    assert_eq!(rt;
        decode_batch(alloc, x).err(),
        Some(BatchError::Fault { at, kind })
    );
}

/// Checks the fault of those two items' bytes with some of them changed.
fn check_edited(rt: &impl Abort, alloc: Global, edits: &[(usize, u8)], at: u64, kind: Flaw) {
    let mut x = TWO_ITEMS;
    for (offset, byte) in edits {
        assert!(rt; *offset < 81);
        x[*offset] = *byte;
    }
    check_fault(rt, alloc, &x, at, kind);
}

#[test]
fn a_mark_is_encoded_by_its_fields(rt: HostRuntime) -> Result<(), Fail> {
    let idle = Batch::Idle(Stamp { epoch: 1, seq: 3 });
    assert_eq!(rt;
        encode_batch(rt.alloc(), &idle)?.as_slice(),
        IDLE.as_slice()
    );
    Ok(())
}

/// The batch that some bytes encode, which is encoded by these very bytes.
fn read(rt: &impl Abort, alloc: Global, x: &[u8]) -> Result<Batch, Fail> {
    let batch = decode_batch(alloc, x)?;
    assert_eq!(rt; encode_batch(alloc, &batch)?.as_slice(), x);
    Ok(batch)
}

#[test]
fn bytes_are_read_as_the_batch_that_they_encode(rt: HostRuntime) -> Result<(), Fail> {
    let batch = read(&rt, rt.alloc(), &ONE_WRITE)?;
    let expected =
        "Items(Seq { items: [Item { stamp: Stamp { epoch: 1, seq: 2 }, worker: 1, index: 1, \
        reply: Reply { outs: Seq { items: [] }, end: Done }, \
        writes: Seq { items: [Write { table: 0, key: 0, row: Some(Row { cells: [5, 0, 0, 0], count: 1 }) }] } }] })";
    assert_eq!(rt; format!(in rt.alloc(); "{batch:?}")?.as_str(), expected);

    let batch = read(&rt, rt.alloc(), &TWO_ITEMS)?;
    let expected =
        "Items(Seq { items: [Item { stamp: Stamp { epoch: 7, seq: 2 }, worker: 3, index: 12, \
        reply: Reply { outs: Seq { items: [9, 0] }, end: Done }, \
        writes: Seq { items: [Write { table: 0, key: 65535, row: Some(Row { cells: [1, 18446744073709551615, 0, 0], count: 2 }) }, \
        Write { table: 15, key: 0, row: None }] } }, \
        Item { stamp: Stamp { epoch: 7, seq: 1099511627774 }, worker: 3, index: 8192, \
        reply: Reply { outs: Seq { items: [] }, end: Declined { op: 64 } }, writes: Seq { items: [] } }] })";
    assert_eq!(rt; format!(in rt.alloc(); "{batch:?}")?.as_str(), expected);
    Ok(())
}

#[test]
fn marks_have_faults(rt: HostRuntime) {
    let cases: [(&[u8], u64, Flaw); 6] = [
        (&[], 0, Flaw::Short),
        (&IDLE[..12], 5, Flaw::Short),
        (&[2, 0, 0, 0, 1, 0, 0, 0, 0, 0, 0, 0, 3, 0], 13, Flaw::Extra),
        (&[9, 0, 0, 0, 1, 0, 0, 0, 0, 0, 0, 0, 3], 0, Flaw::Kind),
        (&[2, 0, 0, 0, 1, 0, 0, 0, 0, 0, 0, 0, 1], 5, Flaw::Range),
        (&[3, 0, 0, 0, 1, 0, 0, 0, 0, 0, 0, 0, 2], 5, Flaw::Range),
    ];
    for (x, at, kind) in cases {
        check_fault(&rt, rt.alloc(), x, at, kind);
    }
}

#[test]
fn items_have_faults(rt: HostRuntime) {
    let cases: [(&[(usize, u8)], u64, Flaw); 22] = [
        (&[(1, 0)], 1, Flaw::Range),
        (&[(1, 65)], 1, Flaw::Range),
        (&[(1, 1)], 66, Flaw::Extra),
        (&[(1, 3)], 81, Flaw::Short),
        (&[(3, 16)], 2, Flaw::Range),
        (&[(6, 17)], 6, Flaw::Range),
        (&[(14, 1)], 7, Flaw::Range),
        (&[(18, 0)], 15, Flaw::Range),
        (&[(19, 65)], 19, Flaw::Range),
        // A declined item has no writes.
        (&[(19, 1)], 37, Flaw::Range),
        (&[(20, 65)], 20, Flaw::Range),
        (&[(20, 64)], 77, Flaw::Short),
        (&[(37, 65)], 37, Flaw::Range),
        (&[(38, 16)], 38, Flaw::Range),
        (&[(40, 1)], 39, Flaw::Range),
        (&[(43, 5)], 43, Flaw::Range),
        // The first of two faults.
        (&[(6, 17), (60, 0)], 6, Flaw::Range),
        // A place that does not rise: with a lower table its key is not read, and with an equal one it is.
        (&[(38, 15), (60, 14), (62, 1)], 60, Flaw::Order),
        (&[(38, 15), (62, 1)], 61, Flaw::Range),
        (&[(60, 0)], 60, Flaw::Order),
        // Equal seqs, and one that is out of range.
        (
            &[(10, 255), (11, 255), (12, 255), (13, 255), (14, 254)],
            66,
            Flaw::Order,
        ),
        (
            &[(69, 0), (70, 0), (71, 0), (72, 0), (73, 1)],
            66,
            Flaw::Range,
        ),
    ];
    for (edits, at, kind) in cases {
        check_edited(&rt, rt.alloc(), edits, at, kind);
    }
}
