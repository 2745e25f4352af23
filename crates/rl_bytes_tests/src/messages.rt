//! A worked message of each kind, and the faults of bytes that are none.

use rl_base::flaw::Flaw;
use rl_msg::decode::decode_msg;
use rl_msg::encode::encode_msg;
use rl_msg::msg::Msg;
use rl_msg::msg_error::MsgError;
use std::alloc::Global;
use std::process::Abort;
use std::test::Fail;

/// Prepare from 1 to 2 at epoch 1.
const PREPARE: [u8; 7] = [1, 1, 2, 0, 0, 0, 1];

/// A Promise from 1 to 2 at epoch 3, of two streams: the first has ballot 2 and the batches `5 6` and `7`, the other
/// ballot 0 and no batch.
const PROMISE: [u8; 35] = [
    2, 1, 2, 0, 0, 0, 3, 2, 0, 0, 0, 2, 0, 0, 0, 2, 0, 0, 0, 2, 5, 6, 0, 0, 0, 1, 7, 0, 0, 0, 0, 0,
    0, 0, 0,
];

/// A Sync from 2 to 7 at epoch 3, of stream 16 with the batch `9`.
const SYNC: [u8; 17] = [3, 2, 7, 0, 0, 0, 3, 16, 0, 0, 0, 1, 0, 0, 0, 1, 9];

/// The Accept from 1 to 1 at epoch 1 of a batch for slot 1 of stream 1: the batch has one item, which writes one row.
const ACCEPT: [u8; 52] = [
    4, 1, 1, 0, 0, 0, 1, 1, 0, 0, 0, 1, 0, 0, 0, 36, 1, 1, 0, 0, 0, 1, 1, 0, 0, 0, 0, 0, 0, 0, 2,
    0, 0, 0, 1, 0, 0, 1, 0, 0, 0, 0, 0, 1, 0, 0, 0, 0, 0, 0, 0, 5,
];

/// Ack from 1 to 1 at epoch 1, of stream 1 with length 2.
const ACK: [u8; 12] = [5, 1, 1, 0, 0, 0, 1, 1, 0, 0, 0, 2];

/// Known from 1 to 1 at epoch 1, of stream 1 with length 4096.
const KNOWN: [u8; 12] = [6, 1, 1, 0, 0, 0, 1, 1, 0, 0, 16, 0];

/// Checks which message some bytes encode, and that it is encoded by these very bytes.
fn check_message(rt: &impl Abort, alloc: Global, x: &[u8], expected: &str) -> Result<(), Fail> {
    let msg = decode_msg(alloc, x)?;
    assert_eq!(rt; format!(in alloc; "{msg:?}")?.as_str(), expected);
    assert_eq!(rt; encode_msg(alloc, &msg)?.as_slice(), x);
    Ok(())
}

#[test]
fn messages_are_encoded_by_their_fields(rt: HostRuntime) -> Result<(), Fail> {
    let prepare = Msg::Prepare {
        from: 1,
        to: 2,
        epoch: 1,
    };
    assert_eq!(rt;
        encode_msg(rt.alloc(), &prepare)?.as_slice(),
        PREPARE.as_slice()
    );
    let cases = [
        (PREPARE.as_slice(), "Prepare { from: 1, to: 2, epoch: 1 }"),
        (
            PROMISE.as_slice(),
            "Promise { from: 1, to: 2, epoch: 3, ballots: Seq { items: [2, 0] }, \
             logs: Seq { items: [Seq { items: [Seq { items: [5, 6] }, Seq { items: [7] }] }, Seq { items: [] }] } }",
        ),
        (
            SYNC.as_slice(),
            "Sync { from: 2, to: 7, epoch: 3, stream: 16, log: Seq { items: [Seq { items: [9] }] } }",
        ),
        (
            ACCEPT.as_slice(),
            "Accept { from: 1, to: 1, epoch: 1, stream: 1, slot: 1, batch: Seq { items: [\
             1, 1, 0, 0, 0, 1, 1, 0, 0, 0, 0, 0, 0, 0, 2, 0, 0, 0, 1, 0, 0, 1, 0, 0, 0, 0, 0, 1, \
             0, 0, 0, 0, 0, 0, 0, 5] } }",
        ),
        (
            ACK.as_slice(),
            "Ack { from: 1, to: 1, epoch: 1, stream: 1, len: 2 }",
        ),
        (
            KNOWN.as_slice(),
            "Known { from: 1, to: 1, epoch: 1, stream: 1, len: 4096 }",
        ),
    ];
    for (x, expected) in cases {
        check_message(&rt, rt.alloc(), x, expected)?;
    }
    Ok(())
}

#[test]
fn messages_have_faults(rt: HostRuntime) {
    let cases: [(&[u8], u64, Flaw); 14] = [
        (&[], 0, Flaw::Short),
        (&[0], 0, Flaw::Kind),
        (&[7, 9, 9], 0, Flaw::Kind),
        (&[1, 1, 8, 0, 0, 0, 1], 2, Flaw::Range),
        // The first of two faults.
        (&[1, 0, 8, 0, 0, 0, 0], 1, Flaw::Range),
        (&[1, 1, 2, 0, 0, 0], 3, Flaw::Short),
        (&[1, 1, 2, 0, 16, 0, 0], 3, Flaw::Range),
        (&[1, 1, 2, 0, 0, 0, 1, 0], 7, Flaw::Extra),
        (&[2, 1, 2, 0, 0, 0, 3, 17], 7, Flaw::Range),
        (&[5, 1, 1, 0, 0, 0, 1, 17, 0, 0, 0, 2], 7, Flaw::Range),
        (&[5, 1, 1, 0, 0, 0, 1, 1, 0, 0, 16, 1], 8, Flaw::Range),
        (&[4, 1, 1, 0, 0, 0, 1, 1, 0, 0, 16, 0], 8, Flaw::Range),
        // A batch of no bytes, and one whose length is longer than what is left.
        (
            &[3, 2, 7, 0, 0, 0, 3, 16, 0, 0, 0, 1, 0, 0, 0, 0],
            12,
            Flaw::Range,
        ),
        (
            &[3, 2, 7, 0, 0, 0, 3, 16, 0, 0, 0, 1, 0, 0, 0, 2, 9],
            16,
            Flaw::Short,
        ),
    ];
    for (x, at, kind) in cases {
        assert_eq!(rt;
            decode_msg(rt.alloc(), x).err(),
            Some(MsgError::Fault { at, kind })
        );
    }
}
