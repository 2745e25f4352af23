//! What a checker answers.

/// Why a report is not right.
#[derive(Clone, Copy, Debug, PartialEq, Eq)]
pub enum Why {
    /// It is no report.
    Form,
    /// It is of another command.
    Title,
    /// The stamp of an item can't be given, or is not above the one before.
    Stamp,
    /// An item is not of the next request of its list.
    Request,
    /// An item answers something else than its request.
    Reply,
    /// A request has no item.
    Missing,
    /// A node has other rows.
    Table,
    /// There are more or fewer nodes.
    Nodes,
}

/// Whether a report is right.
#[derive(Clone, Copy, Debug, PartialEq, Eq)]
pub enum Verdict {
    /// It is, with so many items.
    Yes { items: u32 },
    /// It is not: the first line that is wrong, counted from 1, and why.
    No { line: u32, why: Why },
}
