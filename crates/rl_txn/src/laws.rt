//! Laws of runs: the contract of each function is the law.

ghost use Rattle.rl_txn.specs.Laws.{AnswersFit, SerialItemsFit, RowsGoOnFitting, SerialRowsFit, AnswersHaveWords, SerialItemsHaveWords, RowsKeepWords};

/// What a transaction answers and writes: at most an output and a write for each op, an op of its own
/// where it is declined, and then no writes; and writes that fit the tables, by rising place. The
/// items of a serial list are such.
pub fn answers()
    ensures fit { AnswersFit }
    ensures items { SerialItemsFit }
{}

/// Rows that fit the tables fit them after items whose writes do, as those of a serial list.
pub fn rows()
    ensures fit { RowsGoOnFitting }
    ensures serial { SerialRowsFit }
{}

/// Numbers of eight bytes in the rows give such numbers in what transactions answer and write, and in
/// the rows after them.
pub fn words()
    ensures answers { AnswersHaveWords }
    ensures items { SerialItemsHaveWords }
    ensures rows { RowsKeepWords }
{}
