//! Queries: paths, expressions and criteria.

use crate::value::{Atom, Txt};
use sqlite_items::{Boxed, Items};

/// Names of fields: the first one of the object itself, each further one of an object that the one before names.
pub type Path = Items<Txt>;

/// How a value is compared with a literal.
#[derive(Clone, Copy, PartialEq, Eq)]
pub enum Op {
    Equal,
    Less,
    AtMost,
    Greater,
    AtLeast,
    /// The text contains the literal, where the case of ASCII letters doesn't count.
    Like,
    Contains,
    Starts,
    Ends,
}

pub type Exprs = Items<Expr>;

/// Which objects a query gives.
#[cycle(expr)]
#[derive(Drop)]
pub enum Expr {
    /// Every object.
    All,
    Not(Boxed<Expr>),
    And(Exprs),
    Or(Exprs),
    /// Some value of the path compares so with the literal.
    Test {
        path: Path,
        op: Op,
        atom: Atom,
    },
    /// Some value of the path is null.
    Null {
        path: Path,
    },
    /// Some value of the path is a reference to this object.
    Is {
        path: Path,
        number: u32,
    },
    /// Some value of the path is a reference to an object of this class, or of one below it, that meets the expression.
    Inside {
        path: Path,
        class: u32,
        expr: Boxed<Expr>,
    },
}

/// What an answer is ordered by: the first value of a path.
#[derive(Drop)]
pub struct Criterion {
    pub path: Path,
    pub ascending: bool,
}

/// The first counts most.
pub type Criteria = Items<Criterion>;

/// The objects of a class that meet an expression, in the order of criteria.
#[derive(Drop)]
pub struct Query {
    pub class: u32,
    pub expr: Expr,
    pub criteria: Criteria,
}
