//! The lines of a script: from the bytes of a line to the command that it reads as.
#![tactic(auto)]

mod cursor;
mod lexer;
mod line;
mod parser;
mod words;

pub use line::{LineFault, parse_line};
pub use oc_model::command::{
    Command, CompareOp, CritText, CritTexts, Decl, Decls, ExprText, ExprTexts, FlagSetting, Given,
    Givens, Literal, NumberSetting, PathText, RunDepth, SideText, Single, Singles, TextOp,
    ValueText,
};
