//! The steps of a transaction.

ghost use Rattle.std.specs.Prelude.{◌≡◌};
ghost use Rattle.rl_txn.specs.Run.{holds};

use rl_base::list::Seq;

/// A register, of which there are 16, or a number.
#[derive(Clone, Copy, Debug, PartialEq, Eq)]
pub enum Operand {
    Reg(u32),
    Num(u64),
}

/// A list of operands.
pub type Operands = Seq<Operand>;

/// A relation of two numbers.
#[derive(Clone, Copy, Debug, PartialEq, Eq)]
pub enum Rel {
    Eq,
    Ne,
    Lt,
    Le,
    Gt,
    Ge,
}

impl Rel {
    /// Whether two numbers are in this relation.
    pub fn holds(self, a: u64, b: u64) -> bool
        ensures { result ≡ holds self a b }
    {
        match self {
            Rel::Eq => a == b,
            Rel::Ne => a != b,
            Rel::Lt => a < b,
            Rel::Le => a <= b,
            Rel::Gt => a > b,
            Rel::Ge => a >= b,
        }
    }
}

/// One step of a transaction. `d` is the register that it sets. A key that is not below the
/// table's size declines the transaction.
#[derive(Debug, Drop)]
pub enum Op {
    /// The register becomes the operand.
    Set {
        d: u32,
        a: Operand,
    },
    /// The register becomes the sum, wrapping at 2^64.
    Add {
        d: u32,
        a: Operand,
        b: Operand,
    },
    /// The register becomes the difference, wrapping at 2^64.
    Sub {
        d: u32,
        a: Operand,
        b: Operand,
    },
    /// The register becomes the product, wrapping at 2^64.
    Mul {
        d: u32,
        a: Operand,
        b: Operand,
    },
    /// The register becomes a column of the key's row, or 0 where the row is absent.
    Get {
        table: u32,
        key: Operand,
        column: u32,
        d: u32,
    },
    /// The register becomes 1 where the key's row is present, else 0.
    Has {
        table: u32,
        key: Operand,
        d: u32,
    },
    /// The key's row becomes these values.
    Put {
        table: u32,
        key: Operand,
        values: Operands,
    },
    /// The key's row becomes absent.
    Del {
        table: u32,
        key: Operand,
    },
    /// The register becomes the wrapping sum of a column over the present rows of `count` keys.
    Scan {
        table: u32,
        key: Operand,
        count: u32,
        column: u32,
        d: u32,
    },
    /// Declines where the relation does not hold.
    Need {
        a: Operand,
        rel: Rel,
        b: Operand,
    },
    /// Where the relation holds, the next `count` ops are skipped.
    Skip {
        a: Operand,
        rel: Rel,
        b: Operand,
        count: u32,
    },
    /// The operand joins the outputs.
    Out {
        a: Operand,
    },
}

/// The steps of a transaction, in order.
pub type Txn = Seq<Op>;

/// The requests of one worker, in order.
pub type Requests = Seq<Txn>;

/// One list of requests for each worker.
pub type Lists = Seq<Requests>;
