//! Kinds and values: which values fit a kind, the default of a kind, the order of single values,
//! and whole numbers as bytes.
#![tactic(auto)]

mod integers;
mod kinds;
mod order;
mod widths;

pub use integers::{get_int, get_nat, put_int, put_nat};
pub use kinds::{default_of, fits, fits_base};
pub use oc_model::value::{Atom, Atoms, Base, Entries, Entry, Kind, Rec, Txt, Value};
pub use order::compare;

#[cfg(test)]
mod tests;
