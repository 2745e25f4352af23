//! Laws of the encoding of messages: the contract of each function is the law.

ghost use Rattle.rl_msg.specs.Laws.{MessagesReadBack, OnlyEncodingsAreRead};

/// What encodes a message is read as that message, and nothing else is.
pub fn reads_back()
    ensures read_back { MessagesReadBack }
    ensures only { OnlyEncodingsAreRead }
{}
