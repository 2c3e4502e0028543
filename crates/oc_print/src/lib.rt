//! The text of an answer: the lines of the objects or names that it shows, and its own line.
#![tactic(auto)]

mod lines;
mod numbers;
mod values;

pub use lines::{answer_text, object_line};
pub use oc_model::answer::{
    Answer, Mark, NameLine, NameLines, ObjectLine, ObjectLines, Shown, ShownAtom, ShownAtoms,
    ShownField, ShownFields, ShownValue, Word,
};
