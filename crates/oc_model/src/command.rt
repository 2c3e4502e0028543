//! What a line of a script asks for.

use crate::value::{Kind, Txt};
use sqlite_items::{Boxed, Items};

// ---- values

/// A single value as it is written.
#[derive(Drop)]
pub enum Single {
    Null,
    Bool(bool),
    Int(i128),
    Text(Txt),
    /// The object that is bound to this name.
    Name(Txt),
    /// The object of this number.
    Num(u128),
}

pub type Singles = Items<Single>;

/// The value of a field as it is written.
#[derive(Drop)]
pub enum ValueText {
    One(Single),
    Many(Singles),
}

/// A field's name and the value that it is given.
#[derive(Drop)]
pub struct Given {
    pub name: Txt,
    pub value: ValueText,
}

pub type Givens = Items<Given>;

/// A field's name and its kind.
#[derive(Drop)]
pub struct Decl {
    pub name: Txt,
    pub kind: Kind,
}

pub type Decls = Items<Decl>;

// ---- queries

/// Names of fields, as they are written.
pub type PathText = Items<Txt>;

/// What a value is compared with.
#[derive(Drop)]
pub enum Literal {
    Null,
    Bool(bool),
    Int(i128),
    Text(Txt),
}

#[derive(Clone, Copy, PartialEq, Eq)]
pub enum CompareOp {
    Equal,
    Less,
    AtMost,
    Greater,
    AtLeast,
}

#[derive(Clone, Copy, PartialEq, Eq)]
pub enum TextOp {
    Like,
    Contains,
    Starts,
    Ends,
}

pub type ExprTexts = Items<ExprText>;

/// Which objects a query asks for, as it is written. `And` and `Or` have two members at least.
#[cycle(expr_text)]
#[derive(Drop)]
pub enum ExprText {
    Not(Boxed<ExprText>),
    And(ExprTexts),
    Or(ExprTexts),
    Compare {
        path: PathText,
        op: CompareOp,
        literal: Literal,
    },
    Match {
        path: PathText,
        op: TextOp,
        text: Txt,
    },
    IsName {
        path: PathText,
        name: Txt,
    },
    IsNumber {
        path: PathText,
        number: u128,
    },
    Example {
        path: PathText,
        name: Txt,
    },
}

/// What an answer is ordered by, as it is written.
#[derive(Drop)]
pub struct CritText {
    pub path: PathText,
    pub ascending: bool,
}

pub type CritTexts = Items<CritText>;

// ---- settings and sides

/// A depth that a run takes where a line states none.
#[derive(Clone, Copy, PartialEq, Eq)]
pub enum RunDepth {
    Activation,
    Update,
}

/// A setting of a class that is a number.
#[derive(Clone, Copy, PartialEq, Eq)]
pub enum NumberSetting {
    Minimum,
    Maximum,
    Update,
}

/// A setting of a class that is on or off.
#[derive(Clone, Copy, PartialEq, Eq)]
pub enum FlagSetting {
    CascadeActivate,
    CascadeUpdate,
    CascadeDelete,
}

/// Which of the two stores is looked at.
#[derive(Clone, Copy, PartialEq, Eq)]
pub enum SideText {
    Committed,
    Session,
}

// ---- commands

/// A command, with its names, numbers and values as they are written.
#[derive(Drop)]
pub enum Command {
    Class {
        name: Txt,
        parent: Option<Txt>,
        fields: Decls,
    },
    RenameClass {
        class: Txt,
        to: Txt,
    },
    RenameField {
        class: Txt,
        field: Txt,
        to: Txt,
    },
    Convert {
        class: Txt,
        field: Txt,
        from: Kind,
    },
    Index {
        class: Txt,
        field: Txt,
    },
    Unindex {
        class: Txt,
        field: Txt,
    },
    ConfigRun {
        which: RunDepth,
        to: u128,
    },
    ConfigNumber {
        class: Txt,
        setting: NumberSetting,
        to: u128,
    },
    ConfigFlag {
        class: Txt,
        setting: FlagSetting,
        on: bool,
    },
    New {
        name: Txt,
        class: Txt,
        givens: Givens,
    },
    Make {
        class: Txt,
        givens: Givens,
    },
    Let {
        name: Txt,
        field: Txt,
        value: ValueText,
    },
    BindNumber {
        name: Txt,
        number: u128,
    },
    BindField {
        name: Txt,
        source: Txt,
        field: Txt,
    },
    Forget {
        name: Txt,
    },
    Names,
    Show {
        name: Txt,
    },
    PeekName {
        name: Txt,
        depth: u128,
        side: SideText,
    },
    PeekNumber {
        number: u128,
        depth: u128,
        side: SideText,
    },
    Store {
        name: Txt,
        depth: Option<u128>,
    },
    Delete {
        name: Txt,
    },
    Activate {
        name: Txt,
        depth: Option<u128>,
    },
    Deactivate {
        name: Txt,
        depth: u128,
    },
    Refresh {
        name: Txt,
        depth: u128,
    },
    Purge {
        name: Txt,
    },
    Query {
        class: Txt,
        filter: Option<ExprText>,
        criteria: CritTexts,
    },
    Example {
        name: Txt,
    },
    Commit,
    Rollback,
}
