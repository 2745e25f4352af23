//! Laws of the encoding of batches: the contract of each function is the law.

ghost use Rattle.rl_batch.specs.Laws.{BatchesReadBack, OnlyEncodingsAreRead, EncodingsAreShort};

/// What encodes a batch is read as that batch, and nothing else is.
pub fn reads_back()
    ensures read_back { BatchesReadBack }
    ensures only { OnlyEncodingsAreRead }
{}

/// The encoding of a batch has 1 to `BATCH_BYTES` bytes.
pub fn short()
    ensures { EncodingsAreShort }
{}
