//! Which rule of the language a line breaks.

/// Which rule of the language a line breaks.
#[derive(Clone, Copy, Debug, PartialEq, Eq)]
pub enum Kind {
    /// A byte outside 32 to 126.
    Byte,
    /// The first line is not `rolis 1`.
    Header,
    /// The first word is none that can begin a line.
    Word,
    /// The line can't stand here.
    Order,
    /// Another number of words than the line has.
    Count,
    /// A word that must be a number is none.
    Number,
    /// A number outside its range.
    Range,
    /// A word that must be a table's name is none.
    Name,
    /// A setting, a table or a row is given twice, or the 64th stop is given.
    Duplicate,
    /// A table is not declared before.
    UnknownTable,
    /// A word is no register, or no operand.
    Register,
    /// A word is no relation.
    Relation,
    /// The text ends inside a transaction.
    Unended,
}
