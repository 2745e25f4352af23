//! Laws of the definitions: the contract of each function is the law.

ghost use Rattle.rl_base.specs.Laws.{BytesOfNumber, NextEpochs, PackedOrder};

/// The bytes of the number that some bytes are, the highest first, are these bytes.
pub fn bytes_of_number()
    ensures { BytesOfNumber }
{}

/// The next epoch of a node is its least one above the promise, and at most a round above it.
pub fn next_epochs()
    ensures { NextEpochs }
{}

/// Stamps and their numbers have one order.
pub fn packed_order()
    ensures { PackedOrder }
{}
